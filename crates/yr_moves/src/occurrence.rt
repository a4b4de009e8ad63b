//! Whether a program accepts anything in a text.

ghost use Rattle.std.specs.Prelude.{◌≡◌, ◌+◌, ◌*◌, ◌≤◌, ◌↔◌, length, IsTrue};
ghost use Rattle.yr_moves.specs.Programs.{moves_of, sets_of, IsWellformed};
ghost use Rattle.yr_moves.specs.Walks.{Occurs};

use crate::marks::{Marks, MoveSet};
use crate::pass::{byte_at, pass};
use crate::rows::ProgramRows;
use std::sync::ledger::Ledger;
use yr_base::Steps;

/// Whether the program accepts from some place of the text up to some place.
pub fn occurs<L: Ledger>(
    rows: ProgramRows<'_>,
    text: &[u8],
    marks: &mut Marks,
    steps: &mut Steps<L>,
) -> bool
    requires wellformed { IsWellformed rows }
    requires room { length (moves_of rows) ≤ marks.old.room }
    ensures occurs { IsTrue result ↔ Occurs (moves_of rows.entry) (sets_of rows.entry) text.now }
    ensures room { marks.new.room ≡ marks.old.room }
    ensures least_cost { steps.old + 1 ≤ steps.new }
    ensures most_cost { steps.new ≤ steps.old + length (moves_of rows.entry) * (length text.now + 1) }
{
    let now = &mut marks.now;
    let onwards = &mut marks.onwards;
    find_occurrence(&rows, text, now, onwards, steps)
}

// `occurs` with the two sets of moves apart.
fn find_occurrence<L: Ledger>(
    rows: &ProgramRows<'_>,
    text: &[u8],
    now: &mut MoveSet,
    onwards: &mut MoveSet,
    steps: &mut Steps<L>,
) -> bool
    requires wellformed { IsWellformed rows.now }
    requires room { length (moves_of rows.now) ≤ now.old.room }
    requires same_room { onwards.old.room ≡ now.old.room }
    ensures occurs { IsTrue result ↔ Occurs (moves_of rows.now) (sets_of rows.now) text.now }
    ensures room { (now.new.room ≡ now.old.room) × (onwards.new.room ≡ now.old.room) }
    ensures least_cost { steps.old + 1 ≤ steps.new }
    ensures most_cost { steps.new ≤ steps.old + length (moves_of rows.now) * (length text.now + 1) }
{
    now.clear();
    for i in 0..text.len() + 1 {
        now.add(0);
        if pass(rows, text, i, byte_at(text, i), now, onwards, steps) {
            return true;
        }
        std::mem::swap(now, onwards);
    }
    false
}
