//! Hits whose side before the atom is no program: one walk over the ends of the program after it.

ghost use Rattle.std.specs.Prelude.{◌≡◌, ◌≢◌, ◌+◌, ◌*◌, ◌≤◌, true, length, OnOk, if◌then◌else◌};
ghost use Rattle.std.specs.List.Sorted.{IsNonDecreasing};
ghost use Rattle.yr_walks.specs.EndWalks.{IsMidway};
ghost use Rattle.yr_image.specs.Views.{image_of};
ghost use Rattle.yr_machine.specs.Budget.{moves_count};
ghost use Rattle.yr_hits.specs.Gathering.{Grows};
ghost use Rattle.yr_hits.specs.Spans.{IsGoodHit, AreEnds};
ghost use Rattle.yr_hits.specs.Sweeps.{AreHits, IsInside, SpansOf, SpansOfAll, hit_after};
ghost use Rattle.yr_hits.specs.Walks.{IsEndWalkOf, SpansIf};

use crate::counting::{count_below, moved};
use crate::{Ends, Hit, add_match, only_start, program};
use std::alloc::Global;
use std::sync::ledger::Ledger;
use yr_base::{NoMemory, Steps};
use yr_walks::{Edges, EndMarks, EndWalk, ends};

// The match of a hit whose ends are known.
fn add_hit<L: Ledger>(
    hit: &Hit<'_>,
    ends: &Ends,
    list: &mut Vec<(u32, u32)>,
    steps: &mut Steps<L>,
) -> Result<(), NoMemory>
    requires good { IsGoodHit hit.now }
    requires kind { hit.now.row.before_kind ≢ 2 }
    requires ends { AreEnds hit.now ends.now }
    ensures grows { OnOk result (Grows (SpansOf hit.now hit.now.at) hit.now.greatest list.old.items list.new.items) }
    ensures least_cost { steps.old ≤ steps.new }
    ensures most_cost { steps.new ≤ steps.old + 2 }
{
    let Some(start) = only_start(hit, steps) else {
        return Ok(());
    };
    add_match(hit, ends, start, list, steps)
}

// The match of the hit after so many bytes, where there is that hit, by its ends.
fn add_if<L: Ledger>(
    hit: &Hit<'_>,
    there: bool,
    at: u32,
    ends: &Ends,
    list: &mut Vec<(u32, u32)>,
    steps: &mut Steps<L>,
) -> Result<(), NoMemory>
    requires good { IsGoodHit hit.now }
    requires kind { hit.now.row.before_kind ≢ 2 }
    requires inside { there ≡ true → IsInside hit.now at }
    requires ends { there ≡ true → AreEnds (hit_after hit.now at) ends.now }
    ensures grows { OnOk result (Grows (SpansIf there hit.now at) hit.now.greatest list.old.items list.new.items) }
    ensures least_cost { steps.old ≤ steps.new }
    ensures most_cost { steps.new ≤ steps.old + (if there then 2 else 0) }
{
    if there {
        return add_hit(&moved(hit, at), ends, list, steps);
    }
    Ok(())
}

// The matches of the hits at all places that are left, from the last down.
fn over_ends<L: Ledger>(
    hit: &Hit<'_>,
    hits: &[u32],
    walk: &mut EndWalk<'_>,
    marks: &mut EndMarks,
    list: &mut Vec<(u32, u32)>,
    steps: &mut Steps<L>,
) -> Result<(), NoMemory>
    requires good { IsGoodHit hit.now }
    requires hits { AreHits hit.now hits.now }
    requires ascending { IsNonDecreasing hits.now }
    requires kind { hit.now.row.before_kind ≢ 2 }
    requires walk { IsEndWalkOf hit.now walk.old }
    requires place { walk.old.place ≡ length hit.now.file.now + 1 }
    requires midway { IsMidway walk.old marks.old }
    ensures grows { OnOk result (Grows (SpansOfAll hit.now hits.now) hit.now.greatest list.old.items list.new.items) }
    ensures least_cost { steps.old ≤ steps.new }
    ensures most_cost { steps.new ≤ steps.old + 2 * length walk.old.moves * (length hit.now.file.now + 1) + 2 * length hits.now }
{
    let mut left = hits.len();
    'falling: while walk.place() > 0 {
        let (near, far) = walk.next(marks, steps);
        let at = walk.place();
        let below = count_below(hits, left, at);
        add_if(hit, below < left, at, &Ends { near, far }, list, steps)?;
        left = below;
    }
    Ok(())
}

/// The matches of hits in order, of a split whose side after the atom alone is a program.
pub fn by_ends<L: Ledger>(
    alloc: Global,
    hit: &Hit<'_>,
    hits: &[u32],
    list: &mut Vec<(u32, u32)>,
    steps: &mut Steps<L>,
) -> Result<(), NoMemory>
    requires good { IsGoodHit hit.now }
    requires hits { AreHits hit.now hits.now }
    requires ascending { IsNonDecreasing hits.now }
    requires before { hit.now.row.before_kind ≢ 2 }
    requires after { hit.now.row.after_kind ≡ 2 }
    ensures grows { OnOk result (Grows (SpansOfAll hit.now hits.now) hit.now.greatest list.old.items list.new.items) }
    ensures least_cost { steps.old ≤ steps.new }
    ensures most_cost { steps.new ≤ steps.old
        + 2 * moves_count (image_of hit.now.view.now) hit.now.row.after_place * (length hit.now.file.now + 1) + 2 * length hits.now }
{
    let rows = program(hit.view, hit.row.after_place);
    let edges = Edges::of(alloc, rows, true)?;
    let mut marks = EndMarks::for_moves(alloc, rows.len() as u32)?;
    let mut walk = ends(rows, &edges, hit.file, hit.greatest, hit.border, &mut marks);
    over_ends(hit, hits, &mut walk, &mut marks, list, steps)
}
