//! The starts of a program that is read backwards: the places from which it accepts up to a given one.

ghost use Rattle.std.specs.Prelude.{◌≡◌, ℕ, ◌+◌, ◌-◌, ◌*◌, ◌<◌, ◌≤◌, ◌^◌, ◌↔◌, length, IfSome, IfNone, IsTrue, true, unwrap_or};
ghost use Rattle.yr_rows.specs.Accepts.{AcceptsBackwards};
ghost use Rattle.yr_moves.specs.Programs.{moves_of, sets_of, IsWellformed};
ghost use Rattle.yr_moves.specs.Walks.{IsBest, IsStart, IsMidway};

use crate::marks::{Marks, MoveSet};
use crate::pass::{byte_before, pass};
use crate::rows::ProgramRows;
use std::marker::Model;
use std::sync::ledger::Ledger;
use yr_base::Steps;

/// A walk down over the places from which a backwards program accepts.
#[derive(Drop)]
pub struct StartWalk<'a> {
    rows: ProgramRows<'a>,
    file: &'a [u8],
    at: u32,
    place: u32,
}

impl<'a> Model for StartWalk<'a> {
    ghost use Rattle.yr_moves.specs.Programs.{moves_of, sets_of};
    ghost use Rattle.yr_moves.specs.Walks.{Walk};

    ghost Value = { Walk };

    ghost view = { λ w. record { moves = moves_of w.rows; sets = sets_of w.rows; file = w.file.now; at = w.at; place = w.place } };
}

/// A walk over the places from which a backwards program accepts up to `at`. The marks are the walk's until it is done.
pub fn starts<'a>(
    rows: ProgramRows<'a>,
    file: &'a [u8],
    at: u32,
    marks: &mut Marks,
) -> StartWalk<'a>
    requires wellformed { IsWellformed rows }
    requires place { at ≤ length file.now }
    requires small { length file.now ≤ 2 ^ 28 }
    requires room { length (moves_of rows) ≤ marks.old.room }
    ensures walk { result ≡ record { moves = moves_of rows.entry; sets = sets_of rows.entry; file = file.now; at = at; place = at + 1 } }
    ensures midway { IsMidway result marks.new }
    ensures room { marks.new.room ≡ marks.old.room }
{
    let now = &mut marks.now;
    now.clear();
    now.add(0);
    StartWalk {
        rows,
        file,
        at,
        place: at + 1,
    }
}

impl<'a> StartWalk<'a> {
    /// The greatest place below the walk's own from which the program accepts; the walk falls to it, or to 0.
    pub fn next<L: Ledger>(&mut self, marks: &mut Marks, steps: &mut Steps<L>) -> Option<u32>
        requires { IsMidway self.old marks.old }
        ensures start { IfSome result (λ i. IsBest true (IsStart self.old) i) }
        ensures none { IfNone result ((i : ℕ) → IsStart self.old i → ⊥) }
        ensures walk { self.new ≡ record self.old { place = unwrap_or result 0 } }
        ensures midway { IsMidway self.new marks.new × (marks.new.room ≡ marks.old.room) }
        ensures least_cost { IfSome result (λ i. steps.old + (self.old.place - i) ≤ steps.new) }
        ensures never_falls { steps.old ≤ steps.new }
        ensures most_cost { steps.new ≤ steps.old + length self.old.moves * (self.old.place - self.new.place) }
    {
        let now = &mut marks.now;
        let onwards = &mut marks.onwards;
        self.find(now, onwards, steps)
    }

    // `next` with the two sets of moves apart.
    fn find<L: Ledger>(
        &mut self,
        now: &mut MoveSet,
        onwards: &mut MoveSet,
        steps: &mut Steps<L>,
    ) -> Option<u32>
        requires midway { IsMidway self.old now.old }
        requires room { onwards.old.room ≡ now.old.room }
        ensures start { IfSome result (λ i. IsBest true (IsStart self.old) i) }
        ensures none { IfNone result ((i : ℕ) → IsStart self.old i → ⊥) }
        ensures walk { self.new ≡ record self.old { place = unwrap_or result 0 } }
        ensures midway { IsMidway self.new now.new × (now.new.room ≡ now.old.room) × (onwards.new.room ≡ now.old.room) }
        ensures least_cost { IfSome result (λ i. steps.old + (self.old.place - i) ≤ steps.new) }
        ensures never_falls { steps.old ≤ steps.new }
        ensures most_cost { steps.new ≤ steps.old + length self.old.moves * (self.old.place - self.new.place) }
    {
        'falling: while self.place() > 0 {
            if now.is_empty() {
                self.end();
                return None;
            }
            if self.fall(now, onwards, steps) {
                return Some(self.place());
            }
        }
        None
    }

    // The places from this one on are done.
    fn place(&self) -> u32
        ensures { result ≡ self.now.place }
    {
        self.place
    }

    // All places are done.
    fn end(&mut self)
        ensures { self.new ≡ record self.old { place = 0 } }
    {
        self.place = 0;
    }

    // One place further down: whether the program accepts from there.
    fn fall<L: Ledger>(
        &mut self,
        now: &mut MoveSet,
        onwards: &mut MoveSet,
        steps: &mut Steps<L>,
    ) -> bool
        requires more { 0 < self.old.place }
        requires midway { IsMidway self.old now.old }
        requires room { onwards.old.room ≡ now.old.room }
        ensures walk { self.new ≡ record self.old { place = self.old.place - 1 } }
        ensures midway { IsMidway self.new now.new }
        ensures start { IsTrue result ↔ AcceptsBackwards self.old.moves self.old.sets self.old.file self.new.place self.old.at }
        ensures room { (now.new.room ≡ now.old.room) × (onwards.new.room ≡ now.old.room) }
        ensures least_cost { steps.old + length now.old.items ≤ steps.new }
        ensures most_cost { steps.new ≤ steps.old + length self.old.moves }
    {
        self.place -= 1;
        let i = self.place as usize;
        let byte = byte_before(self.file, i);
        let found = pass(&self.rows, self.file, i, byte, now, onwards, steps);
        std::mem::swap(now, onwards);
        found
    }
}
