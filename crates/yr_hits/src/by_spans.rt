//! Hits of a split of two programs: one walk over the spans of both.

ghost use Rattle.std.specs.Prelude.{◌≡◌, ℕ, ◌+◌, ◌-◌, ◌*◌, ◌<◌, ◌≤◌, length, OnOk};
ghost use Rattle.std.specs.List.Sorted.{IsNonDecreasing};
ghost use Rattle.yr_walks.specs.Spans.{IsReadyFor};
ghost use Rattle.yr_image.specs.Views.{image_of};
ghost use Rattle.yr_machine.specs.Budget.{moves_count};
ghost use Rattle.yr_hits.specs.Gathering.{Grows};
ghost use Rattle.yr_hits.specs.Spans.{IsGoodHit, IsBestOf};
ghost use Rattle.yr_hits.specs.Sweeps.{AreHits, IsCountBelow, SpansOfAll};
ghost use Rattle.yr_hits.specs.Walks.{IsMidSpans, IsSpanWalkOf};

use crate::adding::add_span;
use crate::counting::{atom_of, count_below, end_of_atom};
use crate::{Hit, program};
use std::alloc::Global;
use std::sync::ledger::Ledger;
use yr_base::{NoMemory, Steps};
use yr_walks::{Edges, Side, SpanMarks, SpanWalk, spans};

// The best end of a span that begins at the next place.
fn next_end<L: Ledger>(
    hit: &Hit<'_>,
    hits: &[u32],
    left: &mut usize,
    walk: &mut SpanWalk<'_>,
    kept: &mut SpanMarks,
    steps: &mut Steps<L>,
) -> Option<u32>
    requires good { IsGoodHit hit.now }
    requires hits { AreHits hit.now hits.now }
    requires ascending { IsNonDecreasing hits.now }
    requires more { 0 < walk.old.starts.place }
    requires inside { walk.old.starts.place + hit.now.row.atom_length ≤ length hit.now.file.now + 1 }
    requires walk { IsSpanWalkOf hit.now walk.old }
    requires ready { IsReadyFor walk.old kept.old }
    requires midway { IsMidSpans hit.now hits.now walk.old kept.old }
    requires left { IsCountBelow hits.now (walk.old.starts.place + hit.now.row.atom_length) left.old }
    ensures end { IsBestOf hit.now.greatest (SpansOfAll hit.now hits.now walk.new.starts.place) result }
    ensures place { walk.new.starts.place + 1 ≡ walk.old.starts.place }
    ensures moves { (length walk.new.starts.moves ≡ length walk.old.starts.moves) × (length walk.new.ends.moves ≡ length walk.old.ends.moves) }
    ensures walk { IsSpanWalkOf hit.now walk.new }
    ensures ready { IsReadyFor walk.new kept.new }
    ensures midway { IsMidSpans hit.now hits.now walk.new kept.new }
    ensures left { IsCountBelow hits.now (walk.new.starts.place + hit.now.row.atom_length) left.new }
    ensures falls { left.new ≤ left.old }
    ensures least_cost { steps.old ≤ steps.new }
    ensures most_cost { steps.new ≤ steps.old + 2 * length walk.old.ends.moves + 2 * length walk.old.starts.moves + 1 }
{
    let at = end_of_atom(hit, walk.place());
    let below = count_below(hits, *left, at);
    let there = below < *left;
    *left = below;
    walk.next(there, kept, steps)
}

// The matches at all places that are left, from the last down.
fn over_spans<L: Ledger>(
    hit: &Hit<'_>,
    hits: &[u32],
    walk: &mut SpanWalk<'_>,
    kept: &mut SpanMarks,
    list: &mut Vec<(u32, u32)>,
    steps: &mut Steps<L>,
) -> Result<(), NoMemory>
    requires good { IsGoodHit hit.now }
    requires hits { AreHits hit.now hits.now }
    requires ascending { IsNonDecreasing hits.now }
    requires place { walk.old.starts.place ≡ length hit.now.file.now + 1 - hit.now.row.atom_length }
    requires walk { IsSpanWalkOf hit.now walk.old }
    requires ready { IsReadyFor walk.old kept.old }
    requires midway { IsMidSpans hit.now hits.now walk.old kept.old }
    ensures grows { OnOk result (Grows (SpansOfAll hit.now hits.now) hit.now.greatest list.old.items list.new.items) }
    ensures least_cost { steps.old ≤ steps.new }
    ensures most_cost { steps.new ≤ steps.old
        + (2 * length walk.old.ends.moves + 2 * length walk.old.starts.moves + 2) * (length hit.now.file.now + 1) + 0 * length hits.now }
{
    let mut left = hits.len();
    'falling: while walk.place() > 0 {
        let end = next_end(hit, hits, &mut left, walk, kept, steps);
        let start = walk.place();
        add_span(start, end, list, steps)?;
    }
    Ok(())
}

/// The matches of hits in order, of a split whose sides are both programs.
pub fn by_spans<L: Ledger>(
    alloc: Global,
    hit: &Hit<'_>,
    hits: &[u32],
    list: &mut Vec<(u32, u32)>,
    steps: &mut Steps<L>,
) -> Result<(), NoMemory>
    requires good { IsGoodHit hit.now }
    requires hits { AreHits hit.now hits.now }
    requires ascending { IsNonDecreasing hits.now }
    requires before { hit.now.row.before_kind ≡ 2 }
    requires after { hit.now.row.after_kind ≡ 2 }
    ensures grows { OnOk result (Grows (SpansOfAll hit.now hits.now) hit.now.greatest list.old.items list.new.items) }
    ensures least_cost { steps.old ≤ steps.new }
    ensures most_cost { steps.new ≤ steps.old
        + (2 * moves_count (image_of hit.now.view.now) hit.now.row.after_place
        + 2 * moves_count (image_of hit.now.view.now) hit.now.row.before_place + 2) * (length hit.now.file.now + 1) + 0 * length hits.now }
{
    let before = program(hit.view, hit.row.before_place);
    let after = program(hit.view, hit.row.after_place);
    let onwards = Edges::of(alloc, before, false)?;
    let back = Edges::of(alloc, after, true)?;
    let mut kept = SpanMarks::for_moves(alloc, before.len() as u32, after.len() as u32)?;
    let upper = Side {
        rows: before,
        edges: &onwards,
    };
    let lower = Side {
        rows: after,
        edges: &back,
    };
    let atom = atom_of(hit);
    let mut walk = spans(
        upper,
        lower,
        hit.file,
        atom,
        hit.border,
        hit.greatest,
        &mut kept,
    );
    over_spans(hit, hits, &mut walk, &mut kept, list, steps)
}
