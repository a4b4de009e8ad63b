//! Comparisons, and the operators on any value.

ghost use Rattle.std.specs.Prelude.{◌≡◌};
ghost use Rattle.std.specs.Str.{bytes_eq};
ghost use Rattle.yr_values.specs.Values.{shown, holds};
ghost use Rattle.yr_values.specs.Operators.{on_texts, contrary_of, definedness_of};
ghost use Rattle.yr_values.specs.Comparisons.{precedes, less_of, greater_of, at_most_of, at_least_of, equal_of, unequal_of};

use crate::operand::{numbers, text};
use yr_base::Value;

/// Whether a value holds as a condition.
pub fn holds(v: &Value<'_>) -> bool
    ensures { result ≡ holds (shown v.now) }
{
    match v {
        Value::Undefined => false,
        Value::Number(n) => *n != 0,
        Value::Flag(b) => *b,
        Value::Text(t) => !t.is_empty(),
        Value::Short(s) => !s.bytes[..s.len as usize].is_empty(),
    }
}

/// `not v`.
pub fn contrary(v: &Value<'_>) -> Value<'static>
    ensures { shown result ≡ contrary_of (shown v.now) }
{
    match v {
        Value::Undefined => Value::Undefined,
        _ => Value::Flag(!holds(v)),
    }
}

/// `defined v`.
pub fn definedness(v: &Value<'_>) -> Value<'static>
    ensures { shown result ≡ definedness_of (shown v.now) }
{
    match v {
        Value::Undefined => Value::Flag(false),
        _ => Value::Flag(true),
    }
}

/// `v < w`.
pub fn less(v: &Value<'_>, w: &Value<'_>) -> Value<'static>
    ensures { shown result ≡ less_of (shown v.now) (shown w.now) }
{
    if let Some((x, y)) = numbers(v, w) {
        return Value::Flag(x < y);
    }
    match (text(v), text(w)) {
        (Some(s), Some(t)) => Value::Flag(precedes(s, t)),
        _ => Value::Undefined,
    }
}

fn precedes(s: &[u8], t: &[u8]) -> bool
    ensures { result ≡ precedes s.now t.now }
{
    s.cmp(&t).is_lt()
}

/// `v > w`.
pub fn greater(v: &Value<'_>, w: &Value<'_>) -> Value<'static>
    ensures { shown result ≡ greater_of (shown v.now) (shown w.now) }
{
    less(w, v)
}

/// `v <= w`.
pub fn at_most(v: &Value<'_>, w: &Value<'_>) -> Value<'static>
    ensures { shown result ≡ at_most_of (shown v.now) (shown w.now) }
{
    contrary(&less(w, v))
}

/// `v >= w`.
pub fn at_least(v: &Value<'_>, w: &Value<'_>) -> Value<'static>
    ensures { shown result ≡ at_least_of (shown v.now) (shown w.now) }
{
    contrary(&less(v, w))
}

/// `v == w`.
pub fn equal(v: &Value<'_>, w: &Value<'_>) -> Value<'static>
    ensures { shown result ≡ equal_of (shown v.now) (shown w.now) }
{
    match (v, w) {
        (Value::Number(x), Value::Number(y)) => Value::Flag(x == y),
        (Value::Flag(x), Value::Flag(y)) => Value::Flag(x == y),
        _ => equal_texts(v, w),
    }
}

// Of texts alone.
fn equal_texts(v: &Value<'_>, w: &Value<'_>) -> Value<'static>
    ensures { shown result ≡ on_texts bytes_eq (shown v.now) (shown w.now) }
{
    match (text(v), text(w)) {
        (Some(s), Some(t)) => Value::Flag(s == t),
        _ => Value::Undefined,
    }
}

/// `v != w`.
pub fn unequal(v: &Value<'_>, w: &Value<'_>) -> Value<'static>
    ensures { shown result ≡ unequal_of (shown v.now) (shown w.now) }
{
    contrary(&equal(v, w))
}
