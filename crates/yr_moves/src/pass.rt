//! One place of a search: each move that stands there, with those that it leads to.

ghost use Rattle.std.specs.Prelude.{◌≡◌, ◌+◌, ◌≤◌, ◌<◌, [], length, Contains, slice_get};
ghost use Rattle.yr_rows.specs.Moves.{NamesAmong};
ghost use Rattle.yr_rows.specs.Accepts.{holds};
ghost use Rattle.yr_moves.specs.Programs.{moves_of, sets_of, IsWellformed};
ghost use Rattle.yr_moves.specs.Passes.{Visits, Passes, AreBelow};
ghost use Rattle.yr_moves.specs.Walks.{byte_before};

use crate::marks::MoveSet;
use crate::rows::ProgramRows;
use std::sync::ledger::Ledger;
use yr_base::{Steps, is_edge, is_wide_edge};
use yr_rows::{Assertion, Move};

/// The byte at a place.
#[inline]
pub fn byte_at(file: &[u8], i: usize) -> Option<u8>
    ensures { result ≡ slice_get file.now i }
{
    file.get(i).copied()
}

/// The byte before a place.
#[inline]
pub fn byte_before(file: &[u8], i: usize) -> Option<u8>
    ensures { result ≡ byte_before file.now i }
{
    match i {
        0 => None,
        _ => byte_at(file, i - 1),
    }
}

// Whether an assertion holds at a place.
fn holds(assertion: Assertion, file: &[u8], i: usize) -> bool
    requires { i ≤ length file.now }
    ensures { result ≡ holds assertion file.now i }
{
    match assertion {
        Assertion::Start => i == 0,
        Assertion::End => i == file.len(),
        Assertion::Edge => is_edge(file, i),
        Assertion::NotEdge => !is_edge(file, i),
        Assertion::WideEdge => is_wide_edge(file, i),
        Assertion::WideNotEdge => !is_wide_edge(file, i),
    }
}

// Whether a move accepts. What it leads to joins `now`, or `onwards` where it reads the byte.
#[inline]
fn visit<L: Ledger>(
    rows: &ProgramRows<'_>,
    file: &[u8],
    i: usize,
    byte: Option<u8>,
    v: Move,
    now: &mut MoveSet,
    onwards: &mut MoveSet,
    steps: &mut Steps<L>,
) -> bool
    requires names { NamesAmong (length (moves_of rows.now)) (length (sets_of rows.now)) v }
    requires place { i ≤ length file.now }
    requires room { length (moves_of rows.now) ≤ now.old.room }
    requires room_on { length (moves_of rows.now) ≤ onwards.old.room }
    ensures visits { Visits (sets_of rows.now) file.now i byte v now.old.items now.new.items onwards.old.items onwards.new.items result }
    ensures room { now.new.room ≡ now.old.room }
    ensures room_on { onwards.new.room ≡ onwards.old.room }
    ensures cost { steps.new ≡ steps.old + 1 }
{
    steps.tick();
    match v {
        Move::Accept => return true,
        Move::Set { next, set } => {
            if let Some(b) = byte {
                if rows.set_has(set, b) {
                    onwards.add(next);
                }
            }
        }
        Move::Fork { next, other } => {
            now.add(next);
            now.add(other);
        }
        Move::Test { assertion, next } => {
            if holds(assertion, file, i) {
                now.add(next);
            }
        }
    }
    false
}

/// Whether some move that stands at place i leads there to Accept. `onwards` is then what stands at the next place.
pub fn pass<L: Ledger>(
    rows: &ProgramRows<'_>,
    file: &[u8],
    i: usize,
    byte: Option<u8>,
    now: &mut MoveSet,
    onwards: &mut MoveSet,
    steps: &mut Steps<L>,
) -> bool
    requires wellformed { IsWellformed rows.now }
    requires place { i ≤ length file.now }
    requires below { AreBelow (length (moves_of rows.now)) now.old.items }
    requires room { length (moves_of rows.now) ≤ now.old.room }
    requires room_on { length (moves_of rows.now) ≤ onwards.old.room }
    ensures passes { Passes (moves_of rows.now) (sets_of rows.now) file.now i byte now.old.items onwards.new.items result }
    ensures below { AreBelow (length (moves_of rows.now)) onwards.new.items }
    ensures room { (now.new.room ≡ now.old.room) × (onwards.new.room ≡ onwards.old.room) }
    ensures least_cost { steps.old + length now.old.items ≤ steps.new }
    ensures most_cost { steps.new ≤ steps.old + length (moves_of rows.now) }
{
    onwards.clear();
    let mut found = false;
    let mut k = 0;
    while k < now.len() {
        let v = rows.move_at(now.get(k));
        if visit(rows, file, i, byte, v, now, onwards, steps) {
            found = true;
        }
        k += 1;
    }
    found
}
