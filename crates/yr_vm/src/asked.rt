//! What is asked of the matches of a string.

ghost use Rattle.std.specs.Prelude.{◌≡◌, ◌<◌, length, Some, None, option_map};
ghost use Rattle.std.specs.List.{list_any};
ghost use Rattle.yr_values.specs.Values.{shown};
ghost use Rattle.yr_answer.specs.Lookups.{list_at, at_offset, in_range};
ghost use Rattle.yr_vm.specs.Strings.{asked_shown};

use yr_answer::Matches;
use yr_base::Value;

/// All matches, the one at an offset, or those in a range, both ends included.
#[derive(Clone, Copy, Debug, PartialEq, Eq)]
pub enum Asked {
    Anywhere,
    At(i64),
    Within(i64, i64),
}

/// What `at` a value asks for. None where that is no number.
#[inline]
pub fn asked_at(v: &Value<'_>) -> Option<Asked>
    ensures { option_map asked_shown result ≡ at_offset (shown v.now) }
{
    match v {
        Value::Number(e) => Some(Asked::At(*e)),
        _ => None,
    }
}

/// What `in` a range asks for. None where an end is no number.
#[inline]
pub fn asked_within(v: &Value<'_>, w: &Value<'_>) -> Option<Asked>
    ensures { option_map asked_shown result ≡ in_range (shown v.now) (shown w.now) }
{
    match (v, w) {
        (Value::Number(x), Value::Number(y)) => Some(Asked::Within(*x, *y)),
        _ => None,
    }
}

/// Whether a string has a match that is asked for.
#[inline]
pub fn has_asked(matches: &Matches, string: u32, asked: Asked) -> bool
    requires { string < length matches.now.lists }
    ensures { result ≡ list_any (asked_shown asked) (list_at matches.now.lists string) }
{
    match asked {
        Asked::Anywhere => matches.count(string) > 0,
        Asked::At(e) => matches.at(string, e),
        Asked::Within(x, y) => matches.in_range(string, x, y) > 0,
    }
}
