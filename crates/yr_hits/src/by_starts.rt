//! Hits whose side after the atom is no program: one walk over the starts of the program before it.

ghost use Rattle.std.specs.Prelude.{◌≡◌, ◌≢◌, ℕ, ◌+◌, ◌-◌, ◌*◌, ◌<◌, ◌≤◌, true, false, length, None, OnOk, if◌then◌else◌};
ghost use Rattle.std.specs.List.Sorted.{IsNonDecreasing};
ghost use Rattle.yr_base.specs.Places.{has_left_border};
ghost use Rattle.yr_walks.specs.StartWalks.{IsReadyFor};
ghost use Rattle.yr_image.specs.Views.{image_of};
ghost use Rattle.yr_machine.specs.Budget.{moves_count};
ghost use Rattle.yr_hits.specs.Programs.{HasRoom};
ghost use Rattle.yr_hits.specs.Gathering.{Grows};
ghost use Rattle.yr_hits.specs.Spans.{IsGoodHit, IsBestOf};
ghost use Rattle.yr_hits.specs.Sweeps.{AreHits, IsCountBelow, IsInside, SpansOfAll, hit_after};
ghost use Rattle.yr_hits.specs.Walks.{AreTold, IsMidStarts, IsStartWalkOf};

use crate::adding::add_span;
use crate::counting::{count_below, end_of_atom, moved, top_of};
use crate::{Ends, Hit, ends_of, program};
use std::alloc::Global;
use std::sync::ledger::Ledger;
use yr_base::{NoMemory, Steps, has_left_border};
use yr_moves::Marks;
use yr_walks::{Edges, StartMarks, StartWalk, starts};

// The ends of a hit, as they are told where its atom begins. Past an atom that is not empty, the ends from it on are
// those behind its begin.
fn ends_told<L: Ledger>(hit: &Hit<'_>, marks: &mut Marks, steps: &mut Steps<L>) -> Ends
    requires good { IsGoodHit hit.now }
    requires kind { hit.now.row.after_kind ≢ 2 }
    requires room { HasRoom (image_of hit.now.view.now) marks.old.room }
    ensures told { AreTold hit.now result }
    ensures room { marks.new.room ≡ marks.old.room }
    ensures least_cost { steps.old ≤ steps.new }
    ensures most_cost { steps.new ≤ steps.old + 1 }
{
    let ends = ends_of(hit, marks, steps);
    if hit.row.atom_length == 0 {
        return ends;
    }
    Ends {
        near: ends.near,
        far: ends.near,
    }
}

// What is told after so many bytes, where there is a hit or not.
fn told_if<L: Ledger>(
    hit: &Hit<'_>,
    there: bool,
    at: u32,
    marks: &mut Marks,
    steps: &mut Steps<L>,
) -> Ends
    requires good { IsGoodHit hit.now }
    requires kind { hit.now.row.after_kind ≢ 2 }
    requires inside { IsInside hit.now at }
    requires room { HasRoom (image_of hit.now.view.now) marks.old.room }
    ensures told { there ≡ true → AreTold (hit_after hit.now at) result }
    ensures none { there ≡ false → (result.near ≡ None) × (result.far ≡ None) }
    ensures room { marks.new.room ≡ marks.old.room }
    ensures least_cost { steps.old ≤ steps.new }
    ensures most_cost { steps.new ≤ steps.old + (if there then 1 else 0) }
{
    if there {
        return ends_told(&moved(hit, at), marks, steps);
    }
    Ends {
        near: None,
        far: None,
    }
}

// An end, where a span may begin at the start.
fn with_left_border(hit: &Hit<'_>, start: u32, end: Option<u32>) -> Option<u32>
    requires { start ≤ length hit.now.file.now }
    ensures { result ≡ (if (has_left_border hit.now.border hit.now.file.now start) then end else None) }
{
    if has_left_border(hit.border, hit.file, start as usize) {
        end
    } else {
        None
    }
}

// The best end of a span that begins at the next place.
fn next_end<L: Ledger>(
    hit: &Hit<'_>,
    hits: &[u32],
    left: &mut usize,
    walk: &mut StartWalk<'_>,
    kept: &mut StartMarks,
    marks: &mut Marks,
    steps: &mut Steps<L>,
) -> Option<u32>
    requires good { IsGoodHit hit.now }
    requires hits { AreHits hit.now hits.now }
    requires ascending { IsNonDecreasing hits.now }
    requires kind { hit.now.row.after_kind ≢ 2 }
    requires room { HasRoom (image_of hit.now.view.now) marks.old.room }
    requires more { 0 < walk.old.place }
    requires inside { walk.old.place + hit.now.row.atom_length ≤ length hit.now.file.now + 1 }
    requires walk { IsStartWalkOf hit.now walk.old }
    requires ready { IsReadyFor walk.old kept.old }
    requires midway { IsMidStarts hit.now hits.now walk.old kept.old }
    requires left { IsCountBelow hits.now (walk.old.place + hit.now.row.atom_length) left.old }
    ensures end { IsBestOf hit.now.greatest (SpansOfAll hit.now hits.now walk.new.place) result }
    ensures walk { walk.new ≡ record walk.old { place = walk.old.place - 1 } }
    ensures ready { IsReadyFor walk.new kept.new }
    ensures midway { IsMidStarts hit.now hits.now walk.new kept.new }
    ensures left { IsCountBelow hits.now (walk.new.place + hit.now.row.atom_length) left.new }
    ensures falls { left.new ≤ left.old }
    ensures room { marks.new.room ≡ marks.old.room }
    ensures least_cost { steps.old ≤ steps.new }
    ensures most_cost { steps.new ≤ steps.old + (2 * length walk.old.moves + 1) + 1 * (left.old - left.new) }
{
    let at = end_of_atom(hit, walk.place());
    let below = count_below(hits, *left, at);
    let told = told_if(hit, below < *left, at, marks, steps);
    *left = below;
    let end = walk.next(told.near, told.far, kept, steps);
    let start = walk.place();
    with_left_border(hit, start, end)
}

// The matches at all places that are left, from the last down.
fn over_starts<L: Ledger>(
    hit: &Hit<'_>,
    hits: &[u32],
    walk: &mut StartWalk<'_>,
    kept: &mut StartMarks,
    marks: &mut Marks,
    list: &mut Vec<(u32, u32)>,
    steps: &mut Steps<L>,
) -> Result<(), NoMemory>
    requires good { IsGoodHit hit.now }
    requires hits { AreHits hit.now hits.now }
    requires ascending { IsNonDecreasing hits.now }
    requires kind { hit.now.row.after_kind ≢ 2 }
    requires room { HasRoom (image_of hit.now.view.now) marks.old.room }
    requires place { walk.old.place ≡ length hit.now.file.now + 1 - hit.now.row.atom_length }
    requires walk { IsStartWalkOf hit.now walk.old }
    requires ready { IsReadyFor walk.old kept.old }
    requires midway { IsMidStarts hit.now hits.now walk.old kept.old }
    ensures grows { OnOk result (Grows (SpansOfAll hit.now hits.now) hit.now.greatest list.old.items list.new.items) }
    ensures room { marks.new.room ≡ marks.old.room }
    ensures least_cost { steps.old ≤ steps.new }
    ensures most_cost { steps.new ≤ steps.old + (2 * length walk.old.moves + 2) * (length hit.now.file.now + 1) + 1 * length hits.now }
{
    let mut left = hits.len();
    'falling: while walk.place() > 0 {
        let end = next_end(hit, hits, &mut left, walk, kept, marks, steps);
        let start = walk.place();
        add_span(start, end, list, steps)?;
    }
    Ok(())
}

/// The matches of hits in order, of a split whose side before the atom alone is a program.
pub fn by_starts<L: Ledger>(
    alloc: Global,
    hit: &Hit<'_>,
    hits: &[u32],
    marks: &mut Marks,
    list: &mut Vec<(u32, u32)>,
    steps: &mut Steps<L>,
) -> Result<(), NoMemory>
    requires good { IsGoodHit hit.now }
    requires hits { AreHits hit.now hits.now }
    requires ascending { IsNonDecreasing hits.now }
    requires before { hit.now.row.before_kind ≡ 2 }
    requires after { hit.now.row.after_kind ≢ 2 }
    requires room { HasRoom (image_of hit.now.view.now) marks.old.room }
    ensures grows { OnOk result (Grows (SpansOfAll hit.now hits.now) hit.now.greatest list.old.items list.new.items) }
    ensures room { marks.new.room ≡ marks.old.room }
    ensures least_cost { steps.old ≤ steps.new }
    ensures most_cost { steps.new ≤ steps.old
        + (2 * moves_count (image_of hit.now.view.now) hit.now.row.before_place + 2) * (length hit.now.file.now + 1) + 1 * length hits.now }
{
    let rows = program(hit.view, hit.row.before_place);
    let edges = Edges::of(alloc, rows, false)?;
    let mut kept = StartMarks::for_moves(alloc, rows.len() as u32)?;
    let top = top_of(hit);
    let mut walk = starts(rows, &edges, hit.file, hit.greatest, top, &mut kept);
    over_starts(hit, hits, &mut walk, &mut kept, marks, list, steps)
}
