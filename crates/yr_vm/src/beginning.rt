//! The turns that loops begin.

ghost use Rattle.std.specs.Prelude.{◌≡◌, ◌+◌, ◌<◌, ◌≤◌, ◌≤ℤ◌, ◌-ℤ◌, ℕ, List, Some, length};
ghost use Rattle.yr_rows.specs.Nodes.{outputs_of};
ghost use Rattle.yr_values.specs.Values.{shown};
ghost use Rattle.yr_answer.specs.Turns.{range_turns, range_size, turns_between, string_turns};
ghost use Rattle.yr_vm.specs.Members.{members_in};
ghost use Rattle.yr_vm.specs.OpenLoops.{begun_shown, IsCounted};

use crate::open_loop::Turns;
use crate::turns::{Left, Present};
use yr_base::Value;
use yr_rows::output_at;

/// One less than the most values of a range.
const MOST_MORE: u64 = 268_435_456;

/// The turns of a loop over a range or over strings. They are unknown where a bound is undefined or there are too many.
#[derive(Clone, Copy)]
pub enum Begun {
    Unknown,
    Nothing,
    Some(Turns),
}

/// The turns from one value up to another.
#[inline]
pub fn range(low: &Value<'_>, high: &Value<'_>) -> Begun
    ensures turns { (lists : List ℕ) → begun_shown lists result ≡ range_turns (shown low.now) (shown high.now) }
    ensures counted { (lists : List ℕ) → IsCounted lists result }
{
    match (low, high) {
        (Value::Number(x), Value::Number(y)) => numbers(*x, *y),
        _ => Begun::Unknown,
    }
}

// How much a number is above another.
#[inline]
fn span(x: i64, y: i64) -> u64
    requires { x ≤ℤ y }
    ensures { range_size (y -ℤ x) ≡ result + 1 }
{
    y.abs_diff(x)
}

// The turns from one number up to another.
#[inline]
fn numbers(x: i64, y: i64) -> Begun
    ensures turns { (lists : List ℕ) → begun_shown lists result ≡ turns_between (x, y) }
    ensures counted { (lists : List ℕ) → IsCounted lists result }
{
    if y < x {
        return Begun::Nothing;
    }
    let more = span(x, y);
    if more > MOST_MORE {
        return Begun::Unknown;
    }
    Begun::Some(Turns {
        present: Present::Number(x),
        left: Left::Numbers {
            after: x,
            count: more,
        },
        total: more + 1,
    })
}

/// The turns over the strings in list rows that are there.
#[inline]
pub fn strings(lists: &[u8], first: u64, rows: u64) -> Begun
    requires { 0 < rows → first + rows ≤ length (outputs_of lists.now) }
    ensures turns { begun_shown (outputs_of lists.now) result ≡ Some (string_turns (members_in (outputs_of lists.now) first rows)) }
    ensures counted { IsCounted (outputs_of lists.now) result }
{
    if rows == 0 {
        return Begun::Nothing;
    }
    Begun::Some(Turns {
        present: Present::Member(output_at(lists, first as usize)),
        left: Left::Members {
            row: first + 1,
            count: rows - 1,
        },
        total: rows,
    })
}
