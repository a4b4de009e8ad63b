//! The ends of a program from each place of a file.

ghost use Rattle.std.specs.Prelude.{◌≡◌, ℕ, ◌+◌, ◌-◌, ◌*◌, ◌<◌, ◌≤◌, ◌^◌, [], List, length, IfOk, true, slice_get, if◌then◌else◌};
ghost use Rattle.yr_rows.specs.Moves.{AreWellformedMoves};
ghost use Rattle.yr_moves.specs.Programs.{moves_of, sets_of, IsWellformed};
ghost use Rattle.yr_walks.specs.Arcs.{AreEdges};
ghost use Rattle.yr_walks.specs.declared.carried.Carried.{Carried};
ghost use Rattle.yr_walks.specs.Carried.{AreBelow};
ghost use Rattle.yr_walks.specs.Spreads.{Carries};
ghost use Rattle.yr_walks.specs.EndWalks.{AreBeyond, AreHere, HasRoom, IsBestEnd, IsMidway, or_else};

use crate::carried::EndList;
use crate::edges::Edges;
use crate::spread::{carry, close, join};
use std::alloc::{AllocError, Global};
use std::marker::Model;
use std::sync::ledger::Ledger;
use yr_base::{Border, NoMemory, Steps, has_right_border};
use yr_moves::ProgramRows;

/// What a walk keeps: the moves from which an end is reached.
#[derive(Drop)]
pub struct EndMarks {
    // Those from which an end behind the place is reached, each with the best.
    beyond: EndList,
    // Those from which the place is an end.
    here: EndList,
    // The next `beyond`.
    onwards: EndList,
}

impl Model for EndMarks {
    ghost use Rattle.std.specs.Prelude.{◌≡◌};
    ghost use Rattle.yr_walks.specs.EndWalks.{Kept};

    ghost Value = { Kept };

    ghost view = { λ s. record { beyond = s.beyond; here = s.here } };

    ghost invariant = { λ s. s.beyond.room ≡ s.onwards.room };
}

impl EndMarks {
    /// Marks with room for this many moves.
    pub fn for_moves(alloc: Global, count: u32) -> Result<EndMarks, NoMemory>
        requires { count ≤ 65536 }
        ensures { IfOk result (λ marks. HasRoom (count + 1) marks) }
    {
        let room = count as usize + 1;
        let beyond = EndList::new(alloc, room)?;
        let here = EndList::new(alloc, room)?;
        let onwards = EndList::new(alloc, room)?;
        Ok(EndMarks {
            beyond,
            here,
            onwards,
        })
    }
}

/// A walk down over the places of a file.
#[derive(Drop)]
pub struct EndWalk<'a> {
    rows: ProgramRows<'a>,
    edges: &'a Edges,
    file: &'a [u8],
    greedy: bool,
    border: Border,
    place: u32,
}

impl<'a> Model for EndWalk<'a> {
    ghost use Rattle.std.specs.Prelude.{true};
    ghost use Rattle.yr_moves.specs.Programs.{moves_of, sets_of};
    ghost use Rattle.yr_walks.specs.Arcs.{AreEdges};
    ghost use Rattle.yr_walks.specs.EndWalks.{Walk};

    ghost Value = { Walk };

    ghost view = { λ w. record { moves = moves_of w.rows; sets = sets_of w.rows; file = w.file.now; greedy = w.greedy; border = w.border; place = w.place } };

    ghost invariant = { λ w. AreEdges true (moves_of w.rows) w.edges.now };
}

/// A walk over all places of a file, from its end to its front. Of two ends the greater is better where greedy, else the
/// less. The right border must hold at an end. The arcs are those of the program, followed back.
pub fn ends<'a>(
    rows: ProgramRows<'a>,
    edges: &'a Edges,
    file: &'a [u8],
    greedy: bool,
    border: Border,
    marks: &mut EndMarks,
) -> EndWalk<'a>
    requires wellformed { IsWellformed rows }
    requires edges { AreEdges true (moves_of rows) edges.now }
    requires small { length file.now ≤ 2 ^ 28 }
    requires room { HasRoom (length (moves_of rows) + 1) marks.old }
    ensures walk { result ≡ record { moves = moves_of rows.entry; sets = sets_of rows.entry; file = file.now; greedy = greedy; border = border; place = length file.now + 1 } }
    ensures midway { IsMidway result marks.new }
{
    marks.beyond.clear();
    marks.here.clear();
    EndWalk {
        rows,
        edges,
        file,
        greedy,
        border,
        place: file.len() as u32 + 1,
    }
}

// The first of two ends, or else the second.
fn or_else(first: Option<u32>, second: Option<u32>) -> Option<u32>
    ensures { result ≡ or_else first second }
{
    match first {
        Some(j) => Some(j),
        None => second,
    }
}

// The byte at a place.
fn byte_at(file: &[u8], i: usize) -> Option<u8>
    ensures { result ≡ slice_get file.now i }
{
    file.get(i).copied()
}

// Carries the ends of two lists over the byte, those of the first before the others.
fn carry_both<L: Ledger>(
    rows: &ProgramRows<'_>,
    edges: &Edges,
    file: &[u8],
    i: usize,
    byte: u8,
    first: &EndList,
    second: &EndList,
    list: &mut EndList,
    steps: &mut Steps<L>,
)
    requires wellformed { IsWellformed rows.now }
    requires edges { AreEdges true (moves_of rows.now) edges.now }
    requires place { i ≤ length file.now }
    requires inside { AreBelow (length (moves_of rows.now)) first.now.items × AreBelow (length (moves_of rows.now)) second.now.items }
    requires empty { list.old.items ≡ [] }
    requires room { length (moves_of rows.now) + 1 ≤ list.old.room }
    ensures carries { (mid : List Carried)
        × Carries true (moves_of rows.now) (sets_of rows.now) file.now i byte first.now.items 0 (length first.now.items) list.old.items mid
        × Carries true (moves_of rows.now) (sets_of rows.now) file.now i byte second.now.items 0 (length second.now.items) mid list.new.items }
    ensures below { AreBelow (length (moves_of rows.now)) list.new.items }
    ensures room { list.new.room ≡ list.old.room }
    ensures cost { steps.new ≡ steps.old + length list.new.items }
{
    carry(
        rows,
        edges,
        file,
        i,
        byte,
        first,
        0,
        first.len(),
        list,
        steps,
    );
    carry(
        rows,
        edges,
        file,
        i,
        byte,
        second,
        0,
        second.len(),
        list,
        steps,
    );
}

impl<'a> EndWalk<'a> {
    /// The walk falls to the next place. The answer is the best end from there, and the best that is behind it. A step is
    /// a move that carries an end.
    pub fn next<L: Ledger>(
        &mut self,
        marks: &mut EndMarks,
        steps: &mut Steps<L>,
    ) -> (Option<u32>, Option<u32>)
        requires more { 0 < self.old.place }
        requires midway { IsMidway self.old marks.old }
        ensures walk { self.new ≡ record self.old { place = self.old.place - 1 } }
        ensures end { IsBestEnd self.old self.new.place self.new.place result.0 }
        ensures beyond { IsBestEnd self.old self.new.place (self.new.place + 1) result.1 }
        ensures midway { IsMidway self.new marks.new }
        ensures least_cost { steps.old + 1 ≤ steps.new }
        ensures most_cost { steps.new ≤ steps.old + 2 * length self.old.moves }
    {
        let beyond = &mut marks.beyond;
        let here = &mut marks.here;
        let onwards = &mut marks.onwards;
        self.fall(beyond, here, onwards, steps)
    }

    /// The places from this one on are done.
    pub fn place(&self) -> u32
        ensures { result ≡ self.now.place }
    {
        self.place
    }

    // `next` with the lists apart.
    fn fall<L: Ledger>(
        &mut self,
        beyond: &mut EndList,
        here: &mut EndList,
        onwards: &mut EndList,
        steps: &mut Steps<L>,
    ) -> (Option<u32>, Option<u32>)
        requires more { 0 < self.old.place }
        requires midway { IsMidway self.old (record { beyond = beyond.old; here = here.old }) }
        requires room { onwards.old.room ≡ beyond.old.room }
        ensures walk { self.new ≡ record self.old { place = self.old.place - 1 } }
        ensures end { IsBestEnd self.old self.new.place self.new.place result.0 }
        ensures beyond { IsBestEnd self.old self.new.place (self.new.place + 1) result.1 }
        ensures midway { IsMidway self.new (record { beyond = beyond.new; here = here.new }) }
        ensures room { onwards.new.room ≡ beyond.new.room }
        ensures least_cost { steps.old + 1 ≤ steps.new }
        ensures most_cost { steps.new ≤ steps.old + 2 * length self.old.moves }
    {
        self.step_down();
        self.bring(beyond, here, onwards, steps);
        self.look(here, steps);
        if onwards.len() + here.len() == 0 {
            steps.tick();
        }
        std::mem::swap(beyond, onwards);
        let behind = beyond.end(0);
        (self.better(behind, here.end(0)), behind)
    }

    // The next place is the walk's.
    fn step_down(&mut self)
        requires { 0 < self.old.place }
        ensures { self.new ≡ record self.old { place = self.old.place - 1 } }
    {
        self.place -= 1;
    }

    // Of the best end behind the place, and of the place itself, the better.
    fn better(&self, behind: Option<u32>, at: Option<u32>) -> Option<u32>
        ensures { result ≡ (if self.now.greedy then or_else behind at else or_else at behind) }
    {
        if self.greedy {
            or_else(behind, at)
        } else {
            or_else(at, behind)
        }
    }

    // The ends that lie behind the place: those of the place behind it, over the byte.
    fn bring<L: Ledger>(
        &self,
        beyond: &EndList,
        here: &EndList,
        onwards: &mut EndList,
        steps: &mut Steps<L>,
    )
        requires wellformed { AreWellformedMoves self.now.moves self.now.sets }
        requires place { self.now.place ≤ length self.now.file }
        requires below { AreBelow (length self.now.moves) beyond.now.items × AreBelow (length self.now.moves) here.now.items }
        requires room { length self.now.moves + 1 ≤ onwards.old.room }
        requires beyond { self.now.place < length self.now.file → AreBeyond self.now (self.now.place + 1) beyond.now.items }
        requires here { self.now.place < length self.now.file → AreHere self.now (self.now.place + 1) here.now.items }
        ensures beyond { AreBeyond self.now self.now.place onwards.new.items }
        ensures below { AreBelow (length self.now.moves) onwards.new.items }
        ensures room { onwards.new.room ≡ onwards.old.room }
        ensures cost { steps.new ≡ steps.old + length onwards.new.items }
    {
        onwards.clear();
        let i = self.place as usize;
        let rows = &self.rows;
        match byte_at(self.file, i) {
            None => (),
            Some(b) => {
                if self.greedy {
                    carry_both(
                        rows, self.edges, self.file, i, b, beyond, here, onwards, steps,
                    );
                } else {
                    carry_both(
                        rows, self.edges, self.file, i, b, here, beyond, onwards, steps,
                    );
                }
            }
        }
    }

    // The moves from which the place itself is an end.
    fn look<L: Ledger>(&self, here: &mut EndList, steps: &mut Steps<L>)
        requires wellformed { AreWellformedMoves self.now.moves self.now.sets }
        requires place { self.now.place ≤ length self.now.file }
        requires room { length self.now.moves + 1 ≤ here.old.room }
        ensures here { AreHere self.now self.now.place here.new.items }
        ensures below { AreBelow (length self.now.moves) here.new.items }
        ensures room { here.new.room ≡ here.old.room }
        ensures cost { steps.new ≡ steps.old + length here.new.items }
    {
        here.clear();
        let i = self.place as usize;
        if has_right_border(self.border, self.file, i) {
            let accepted = self.rows.len() as u32;
            join(
                &self.rows, self.edges, self.file, i, None, accepted, self.place, here,
            );
            close(
                &self.rows, self.edges, self.file, i, 0, self.place, here, steps,
            );
        }
    }
}
