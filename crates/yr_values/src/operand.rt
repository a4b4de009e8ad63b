//! Operands by their kinds.

ghost use Rattle.std.specs.Prelude.{◌≡◌, ◌≤◌, MatchOption, length};
ghost use Rattle.yr_values.specs.Values.{shown};
ghost use Rattle.std.specs.Option.{option_map};
ghost use Rattle.yr_values.specs.Operators.{number_in, numbers_in, text_in};

use yr_base::Value;

/// The number that a value is.
pub(crate) fn number(v: &Value<'_>) -> Option<i64>
    ensures { result ≡ number_in (shown v.now) }
{
    match v {
        Value::Number(n) => Some(*n),
        _ => None,
    }
}

/// The numbers that two values are.
pub(crate) fn numbers(v: &Value<'_>, w: &Value<'_>) -> Option<(i64, i64)>
    ensures { result ≡ numbers_in (shown v.now) (shown w.now) }
{
    match (v, w) {
        (Value::Number(x), Value::Number(y)) => Some((*x, *y)),
        _ => None,
    }
}

/// The text that a value is, lent or carried along.
pub(crate) fn text<'a>(v: &'a Value<'_>) -> Option<&'a [u8]>
    ensures { option_map (λ t. t.now) result ≡ text_in (shown v.now) }
{
    match v {
        Value::Text(t) => Some(t),
        Value::Short(s) => Some(&s.bytes[..s.len as usize]),
        _ => None,
    }
}
