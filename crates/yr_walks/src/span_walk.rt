//! The best end of a span of one split from each place of a file.

ghost use Rattle.std.specs.Prelude.{◌≡◌, ℕ, ◌+◌, ◌-◌, ◌*◌, ◌<◌, ◌≤◌, ◌^◌, ◌∷◌, [], List, Option, Some, None, Bool, length, IfOk, true, false, ◌==◌, if◌then◌else◌};
ghost use Rattle.yr_moves.specs.Programs.{moves_of, sets_of, IsWellformed};
ghost use Rattle.yr_walks.specs.Arcs.{AreEdges};
ghost use Rattle.yr_walks.specs.EndWalks as ends;
ghost use Rattle.yr_walks.specs.StartWalks as starts;
ghost use Rattle.yr_walks.specs.StartWalks.{IsBestOf};
ghost use Rattle.yr_walks.specs.Spans.{IsCounted, IsMidway, IsReadyFor, Kept, Walk};

use crate::start_walk::{StartMarks, StartWalk, starts};
use crate::{Edges, EndMarks, EndWalk, ends};
use std::alloc::Global;
use std::marker::Model;
use std::sync::ledger::Ledger;
use yr_base::{Border, NoMemory, Steps, has_left_border};
use yr_moves::ProgramRows;

/// What a walk keeps, for both sides.
#[derive(Drop)]
pub struct SpanMarks {
    ends: EndMarks,
    starts: StartMarks,
}

impl Model for SpanMarks {
    ghost use Rattle.yr_walks.specs.Spans.{Kept};

    ghost Value = { Kept };

    ghost view = { λ s. record { ends = s.ends; starts = s.starts } };
}

impl SpanMarks {
    /// Marks with room for programs of these many moves before the atom and after it.
    pub fn for_moves(alloc: Global, before: u32, after: u32) -> Result<SpanMarks, NoMemory>
        requires before { before ≤ 65536 }
        requires after { after ≤ 65536 }
        ensures ends { IfOk result (λ marks. ends.HasRoom (after + 1) marks.ends) }
        ensures starts { IfOk result (λ marks. starts.HasRoom (before + 1) marks.starts) }
    {
        let ends = EndMarks::for_moves(alloc, after)?;
        let starts = StartMarks::for_moves(alloc, before)?;
        Ok(SpanMarks { ends, starts })
    }
}

/// A program with its arcs: followed back for the side after an atom, onwards for the side before it.
#[derive(Clone, Copy)]
pub struct Side<'a> {
    pub rows: ProgramRows<'a>,
    pub edges: &'a Edges,
}

/// A walk down over the places at which spans of one split begin.
#[derive(Drop)]
pub struct SpanWalk<'a> {
    ends: EndWalk<'a>,
    starts: StartWalk<'a>,
    atom: u32,
    border: Border,
    file: &'a [u8],
}

impl<'a> Model for SpanWalk<'a> {
    ghost use Rattle.std.specs.Prelude.{◌≡◌, ◌+◌, ◌<◌, ◌≤◌, ◌^◌, length};
    ghost use Rattle.yr_walks.specs.Spans.{Walk};

    ghost Value = { Walk };

    ghost view = { λ w. record { ends = w.ends; starts = w.starts; atom = w.atom } };

    ghost invariant = { λ w. (w.border ≡ w.ends.border) × (w.file.now ≡ w.ends.file) };
}

/// A walk over the places at which a span may begin, from the last down to the front, with no hit yet. The sides of the
/// split are programs; the program that accepts at once stands for nothing.
pub fn spans<'a>(
    before: Side<'a>,
    after: Side<'a>,
    file: &'a [u8],
    atom: u32,
    border: Border,
    greedy: bool,
    marks: &mut SpanMarks,
) -> SpanWalk<'a>
    requires before { IsWellformed before.rows × AreEdges false (moves_of before.rows) before.edges.now }
    requires after { IsWellformed after.rows × AreEdges true (moves_of after.rows) after.edges.now }
    requires small { length file.now ≤ 2 ^ 28 }
    requires room { ends.HasRoom (length (moves_of after.rows) + 1) marks.old.ends × starts.HasRoom (length (moves_of before.rows) + 1) marks.old.starts }
    ensures ends { result.ends ≡ record { moves = moves_of after.entry.rows; sets = sets_of after.entry.rows; file = file.now; greedy = greedy; border = border; place = length file.now + 1 } }
    ensures starts { result.starts ≡ record { moves = moves_of before.entry.rows; sets = sets_of before.entry.rows; file = file.now; greedy = greedy; place = length file.now + 1 - atom } }
    ensures atom { result.atom ≡ atom }
    ensures ready { IsReadyFor result marks.new }
    ensures midway { IsMidway result [] marks.new }
{
    let last = first_place(file.len() as u32, atom);
    let ends = ends(
        after.rows,
        after.edges,
        file,
        greedy,
        border,
        &mut marks.ends,
    );
    let starts = starts(
        before.rows,
        before.edges,
        file,
        greedy,
        last,
        &mut marks.starts,
    );
    SpanWalk {
        ends,
        starts,
        atom,
        border,
        file,
    }
}

// The place above the last at which an atom may begin.
fn first_place(size: u32, atom: u32) -> u32
    requires { size ≤ 268435456 }
    ensures { result ≡ size + 1 - atom }
{
    if atom > size { 0 } else { size + 1 - atom }
}

// What is told at a place: nothing, or the best end of a span that reads a byte before the atom, and of one that reads
// none. An empty atom wants an end behind it.
fn told_at(
    hit: bool,
    atom: u32,
    near: Option<u32>,
    beyond: Option<u32>,
) -> (Option<u32>, Option<u32>)
    ensures near { result.0 ≡ (if hit then near else None) }
    ensures far { result.1 ≡ (if hit then (if (atom == 0) then beyond else near) else None) }
{
    if !hit {
        return (None, None);
    }
    if atom == 0 {
        return (near, beyond);
    }
    (near, near)
}

impl<'a> SpanWalk<'a> {
    /// The walk falls to the next place, told whether an atom that is hit begins there. The answer is the best end of a
    /// span that begins there and that some hit gives. A step is a move that carries an end.
    pub fn next<L: Ledger>(
        &mut self,
        hit: bool,
        marks: &mut SpanMarks,
        steps: &mut Steps<L>,
    ) -> Option<u32>
        requires more { 0 < self.old.starts.place }
        requires ready { IsReadyFor self.old marks.old }
        ensures ends { self.new.ends ≡ record self.old.ends { place = self.old.ends.place - 1 } }
        ensures starts { self.new.starts ≡ record self.old.starts { place = self.old.starts.place - 1 } }
        ensures atom { self.new.atom ≡ self.old.atom }
        ensures ready { IsReadyFor self.new marks.new }
        ensures span { (hits : List ℕ) → IsMidway self.old hits marks.old
            → IsBestOf self.old.ends.greedy (IsCounted self.old (if hit then self.new.starts.place ∷ hits else hits) self.new.starts.place) result }
        ensures midway { (hits : List ℕ) → IsMidway self.old hits marks.old
            → IsMidway self.new (if hit then self.new.starts.place ∷ hits else hits) marks.new }
        ensures least_cost { steps.old + 1 ≤ steps.new }
        ensures most_cost { steps.new ≤ steps.old + 2 * length self.old.ends.moves + 2 * length self.old.starts.moves + 1 }
    {
        let (near, beyond) = self.ends.next(&mut marks.ends, steps);
        let (near, far) = told_at(hit, self.atom, near, beyond);
        let best = self.starts.next(near, far, &mut marks.starts, steps);
        if has_left_border(self.border, self.file, self.starts.place() as usize) {
            best
        } else {
            None
        }
    }

    /// The places from this one on are done.
    pub fn place(&self) -> u32
        ensures { result ≡ self.now.starts.place }
    {
        self.starts.place()
    }
}
