//! The turn after the present one.

ghost use Rattle.std.specs.Prelude.{◌≡◌, ◌+◌, ◌<◌, ◌≤◌, ◌^◌, ◌≤ℤ◌, pos, length, IfSome, option_map, slice_get};
ghost use Rattle.yr_answer.specs.Turns.{Item};
ghost use Rattle.yr_rows.specs.Nodes.{outputs_of};
ghost use Rattle.yr_vm.specs.Turns.{left_shown, next_shown, item_shown, present_shown, turns_left, last_number, last_item, last_row, IsAfter};

use crate::open_loop::MOST_ITEMS;
use crate::turns::{Left, Present};
use yr_rows::output_at;

/// The member in a list row, where there is such a row.
#[inline]
fn member_at(lists: &[u8], row: u64) -> Option<u32>
    ensures { result ≡ slice_get (outputs_of lists.now) row }
{
    if row < lists.len() as u64 / 4 {
        Some(output_at(lists, row as usize))
    } else {
        None
    }
}

/// An item of a list as a turn.
#[inline]
pub fn item_turn(item: Option<i64>) -> Present
    ensures { present_shown result ≡ Item (item_shown item) }
{
    match item {
        Some(n) => Present::Number(n),
        None => Present::Undefined,
    }
}

/// The next turn of a loop with these items, over these list rows, and those after it. None where no turn is left.
#[inline]
pub fn next_turn(
    lists: &[u8],
    items: &[Option<i64>; MOST_ITEMS],
    left: Left,
) -> Option<(Present, Left)>
    requires numbers { last_number left ≤ℤ pos 9223372036854775807 }
    requires listed { last_item left ≤ 128 }
    requires rows { last_row left ≤ 2 ^ 62 }
    ensures turns { left_shown (outputs_of lists.now) items.now left ≡ next_shown (outputs_of lists.now) items.now result }
    ensures after { IfSome result (λ next. IsAfter left next.1) }
{
    match left {
        Left::Numbers { after, count } if count > 0 => Some((
            Present::Number(after + 1),
            Left::Numbers {
                after: after + 1,
                count: count - 1,
            },
        )),
        Left::Items { from, count } if count > 0 => Some((
            item_turn(items[from]),
            Left::Items {
                from: from + 1,
                count: count - 1,
            },
        )),
        Left::Members { row, count } if count > 0 => {
            let member = member_at(lists, row)?;
            Some((
                Present::Member(member),
                Left::Members {
                    row: row + 1,
                    count: count - 1,
                },
            ))
        }
        _ => None,
    }
}
