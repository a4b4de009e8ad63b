//! The operators on texts.

ghost use Rattle.std.specs.Prelude.{◌≡◌, ◌↔◌, length, map, IsTrue};
ghost use Rattle.std.specs.Str.{bytes_eq};
ghost use Rattle.yr_base.specs.Bytes.{lowered};
ghost use Rattle.yr_values.specs.Values.{shown};
ghost use Rattle.yr_values.specs.Texts.{begins_with, ends_with, has_inside, in_either_case};
ghost use Rattle.yr_values.specs.Texts.{contains_of, icontains_of, startswith_of, istartswith_of, endswith_of, iendswith_of, iequals_of};

use crate::folded::has_inside_in_either_case;
use crate::operand::text;
use memchr::memmem;
use yr_base::Value;

/// `v contains w`, in a time linear in the text.
pub fn contains(v: &Value<'_>, w: &Value<'_>) -> Value<'static>
    ensures { shown result ≡ contains_of (shown v.now) (shown w.now) }
{
    match (text(v), text(w)) {
        (Some(t), Some(part)) => Value::Flag(has_inside(t, part)),
        _ => Value::Undefined,
    }
}

fn has_inside(text: &[u8], part: &[u8]) -> bool
    ensures { result ≡ has_inside text.now part.now }
{
    memmem::find(text, part).is_some()
}

/// `v icontains w`, in a time linear in both texts.
pub fn icontains(v: &Value<'_>, w: &Value<'_>) -> Value<'static>
    ensures { shown result ≡ icontains_of (shown v.now) (shown w.now) }
{
    match (text(v), text(w)) {
        (Some(t), Some(part)) => Value::Flag(has_inside_in_either_case(t, part)),
        _ => Value::Undefined,
    }
}

/// `v startswith w`.
pub fn startswith(v: &Value<'_>, w: &Value<'_>) -> Value<'static>
    ensures { shown result ≡ startswith_of (shown v.now) (shown w.now) }
{
    match (text(v), text(w)) {
        (Some(t), Some(part)) => Value::Flag(t.starts_with(part)),
        _ => Value::Undefined,
    }
}

/// `v endswith w`.
pub fn endswith(v: &Value<'_>, w: &Value<'_>) -> Value<'static>
    ensures { shown result ≡ endswith_of (shown v.now) (shown w.now) }
{
    match (text(v), text(w)) {
        (Some(t), Some(part)) => Value::Flag(t.ends_with(part)),
        _ => Value::Undefined,
    }
}

/// `v iequals w`.
pub fn iequals(v: &Value<'_>, w: &Value<'_>) -> Value<'static>
    ensures { shown result ≡ iequals_of (shown v.now) (shown w.now) }
{
    match (text(v), text(w)) {
        (Some(s), Some(t)) => Value::Flag(equals_in_either_case(s, t)),
        _ => Value::Undefined,
    }
}

fn equals_in_either_case(s: &[u8], t: &[u8]) -> bool
    ensures { result ≡ in_either_case bytes_eq s.now t.now }
{
    s.eq_ignore_ascii_case(t)
}

/// `v istartswith w`.
pub fn istartswith(v: &Value<'_>, w: &Value<'_>) -> Value<'static>
    ensures { shown result ≡ istartswith_of (shown v.now) (shown w.now) }
{
    match (text(v), text(w)) {
        (Some(t), Some(part)) => Value::Flag(begins_in_either_case(t, part)),
        _ => Value::Undefined,
    }
}

fn begins_in_either_case(text: &[u8], part: &[u8]) -> bool
    ensures { result ≡ in_either_case begins_with text.now part.now }
{
    part.len() <= text.len() && equals_in_either_case(&text[..part.len()], part)
}

/// `v iendswith w`.
pub fn iendswith(v: &Value<'_>, w: &Value<'_>) -> Value<'static>
    ensures { shown result ≡ iendswith_of (shown v.now) (shown w.now) }
{
    match (text(v), text(w)) {
        (Some(t), Some(part)) => Value::Flag(ends_in_either_case(t, part)),
        _ => Value::Undefined,
    }
}

fn ends_in_either_case(text: &[u8], part: &[u8]) -> bool
    ensures { result ≡ in_either_case ends_with text.now part.now }
{
    part.len() <= text.len() && equals_in_either_case(&text[text.len() - part.len()..], part)
}
