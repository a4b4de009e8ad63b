//! The end of a program: the least place up to which it accepts, or the greatest.

ghost use Rattle.std.specs.Prelude.{◌≡◌, ℕ, ◌+◌, ◌-◌, ◌*◌, ◌≤◌, ◌^◌, ◌↔◌, length, IfSome, IfNone, IsTrue, MatchOption};
ghost use Rattle.yr_base.specs.Places.{has_right_border};
ghost use Rattle.yr_moves.specs.Programs.{moves_of, sets_of, IsWellformed};
ghost use Rattle.yr_moves.specs.Walks.{IsBest, IsEnd};

use crate::marks::{Marks, MoveSet};
use crate::pass::{byte_at, pass};
use crate::rows::ProgramRows;
use std::sync::ledger::Ledger;
use yr_base::{Border, Steps, has_right_border};

/// The least, or where greedy the greatest, place from `least` on up to which the program accepts from `at`, and at
/// which the right border holds. A step is one move that is looked at at one place.
pub fn best_end<L: Ledger>(
    rows: ProgramRows<'_>,
    file: &[u8],
    at: u32,
    least: u32,
    greedy: bool,
    border: Border,
    marks: &mut Marks,
    steps: &mut Steps<L>,
) -> Option<u32>
    requires wellformed { IsWellformed rows }
    requires place { at ≤ length file.now }
    requires small { length file.now ≤ 2 ^ 28 }
    requires room { length (moves_of rows) ≤ marks.old.room }
    ensures end { IfSome result (λ j. IsBest greedy (IsEnd (moves_of rows.entry) (sets_of rows.entry) file.now at least border) j) }
    ensures none { IfNone result ((j : ℕ) → IsEnd (moves_of rows.entry) (sets_of rows.entry) file.now at least border j → ⊥) }
    ensures room { marks.new.room ≡ marks.old.room }
    ensures least_cost { MatchOption result (steps.old + 1 ≤ steps.new) (λ j. steps.old + (j + 1 - at) ≤ steps.new) }
    ensures most_cost { steps.new ≤ steps.old + length (moves_of rows.entry) * (length file.now + 1 - at) }
{
    let now = &mut marks.now;
    let onwards = &mut marks.onwards;
    match find_end(
        &rows,
        file,
        at as usize,
        least as usize,
        greedy,
        border,
        now,
        onwards,
        steps,
    ) {
        Some(j) => Some(j as u32),
        None => None,
    }
}

// Whether a place at which the program accepts is one of those that are looked for.
fn is_wanted(file: &[u8], i: usize, least: usize, border: Border) -> bool
    requires { i ≤ length file.now }
    ensures { IsTrue result ↔ ((least ≤ i) × IsTrue (has_right_border border file.now i)) }
{
    least <= i && has_right_border(border, file, i)
}

// `best_end` with the two sets of moves apart.
fn find_end<L: Ledger>(
    rows: &ProgramRows<'_>,
    file: &[u8],
    at: usize,
    least: usize,
    greedy: bool,
    border: Border,
    now: &mut MoveSet,
    onwards: &mut MoveSet,
    steps: &mut Steps<L>,
) -> Option<usize>
    requires wellformed { IsWellformed rows.now }
    requires place { at ≤ length file.now }
    requires room { length (moves_of rows.now) ≤ now.old.room }
    requires same_room { onwards.old.room ≡ now.old.room }
    ensures end { IfSome result (λ j. IsBest greedy (IsEnd (moves_of rows.now) (sets_of rows.now) file.now at least border) j) }
    ensures none { IfNone result ((j : ℕ) → IsEnd (moves_of rows.now) (sets_of rows.now) file.now at least border j → ⊥) }
    ensures inside { IfSome result (λ j. j ≤ length file.now) }
    ensures room { (now.new.room ≡ now.old.room) × (onwards.new.room ≡ now.old.room) }
    ensures least_cost { MatchOption result (steps.old + 1 ≤ steps.new) (λ j. steps.old + (j + 1 - at) ≤ steps.new) }
    ensures most_cost { steps.new ≤ steps.old + length (moves_of rows.now) * (length file.now + 1 - at) }
{
    now.clear();
    now.add(0);
    let mut best = None;
    for i in at..file.len() + 1 {
        if now.is_empty() {
            return best;
        }
        let found = pass(rows, file, i, byte_at(file, i), now, onwards, steps);
        if found && is_wanted(file, i, least, border) {
            best = Some(i);
            if !greedy {
                return best;
            }
        }
        std::mem::swap(now, onwards);
    }
    best
}
