//! All hits of a split.

ghost use Rattle.std.specs.Prelude.{◌≡◌, ◌+◌, ◌*◌, ◌^◌, ◌<◌, ◌≤◌, length, Contains, OnOk};
ghost use Rattle.std.specs.List.Sorted.{IsNonDecreasing};
ghost use Rattle.yr_image.specs.Views.{shown_bytes, image_of};
ghost use Rattle.yr_machine.specs.Budget.{hit_cost, output_cost};
ghost use Rattle.yr_machine.specs.Wellformed.{IsWellformed};
ghost use Rattle.yr_hits.specs.Gathering.{Grows};
ghost use Rattle.yr_hits.specs.Programs.{HasRoom};
ghost use Rattle.yr_hits.specs.Spans.{IsGoodHit};
ghost use Rattle.yr_hits.specs.Sweeps.{AreHits, AreHitsOf, SpansOfAll, Sweeps};

use crate::by_ends::by_ends;
use crate::by_spans::by_spans;
use crate::by_starts::by_starts;
use crate::one_by_one::one_by_one;
use crate::{Hit, hit_of};
use std::alloc::Global;
use std::sync::ledger::Ledger;
use yr_base::{NoMemory, Steps};
use yr_image::ImageView;
use yr_moves::Marks;

// The matches of many hits in order, where the side before the atom is a program.
fn by_places<L: Ledger>(
    alloc: Global,
    hit: &Hit<'_>,
    hits: &[u32],
    marks: &mut Marks,
    list: &mut Vec<(u32, u32)>,
    steps: &mut Steps<L>,
) -> Result<(), NoMemory>
    requires good { IsGoodHit hit.now }
    requires hits { AreHits hit.now hits.now }
    requires ascending { IsNonDecreasing hits.now }
    requires many { 4 ≤ length hits.now }
    requires before { hit.now.row.before_kind ≡ 2 }
    requires room { HasRoom (image_of hit.now.view.now) marks.old.room }
    ensures grows { OnOk result (Grows (SpansOfAll hit.now hits.now) hit.now.greatest list.old.items list.new.items) }
    ensures room { marks.new.room ≡ marks.old.room }
    ensures least_cost { steps.old ≤ steps.new }
    ensures most_cost { steps.new + length hits.now ≤ steps.old
        + hit_cost (image_of hit.now.view.now) (length hit.now.file.now) hit.now.row * length hits.now }
{
    let after = hit.row.after_kind;
    if after == 2 {
        return by_spans(alloc, hit, hits, list, steps);
    }
    by_starts(alloc, hit, hits, marks, list, steps)
}

// The matches of many hits in order: in one walk, where a side of the split is a program.
fn in_a_walk<L: Ledger>(
    alloc: Global,
    hit: &Hit<'_>,
    hits: &[u32],
    marks: &mut Marks,
    list: &mut Vec<(u32, u32)>,
    steps: &mut Steps<L>,
) -> Result<(), NoMemory>
    requires good { IsGoodHit hit.now }
    requires hits { AreHits hit.now hits.now }
    requires ascending { IsNonDecreasing hits.now }
    requires many { 4 ≤ length hits.now }
    requires room { HasRoom (image_of hit.now.view.now) marks.old.room }
    ensures grows { OnOk result (Grows (SpansOfAll hit.now hits.now) hit.now.greatest list.old.items list.new.items) }
    ensures room { marks.new.room ≡ marks.old.room }
    ensures least_cost { steps.old ≤ steps.new }
    ensures most_cost { steps.new + length hits.now ≤ steps.old
        + hit_cost (image_of hit.now.view.now) (length hit.now.file.now) hit.now.row * length hits.now }
{
    let before = hit.row.before_kind;
    if before == 2 {
        return by_places(alloc, hit, hits, marks, list, steps);
    }
    let after = hit.row.after_kind;
    if after == 2 {
        return by_ends(alloc, hit, hits, list, steps);
    }
    one_by_one(hit, hits, marks, list, steps)
}

// The matches of hits of the split of a hit. From four hits on, a walk over the file costs no more than to take each
// of them apart.
fn sweep_split<L: Ledger>(
    alloc: Global,
    hit: &Hit<'_>,
    mut hits: Vec<u32>,
    marks: &mut Marks,
    list: &mut Vec<(u32, u32)>,
    steps: &mut Steps<L>,
) -> Result<(), NoMemory>
    requires good { IsGoodHit hit.now }
    requires hits { AreHits hit.now hits.items }
    requires room { HasRoom (image_of hit.now.view.now) marks.old.room }
    ensures grows { OnOk result (Grows (SpansOfAll hit.now hits.items) hit.now.greatest list.old.items list.new.items) }
    ensures room { marks.new.room ≡ marks.old.room }
    ensures least_cost { steps.old ≤ steps.new }
    ensures most_cost { steps.new + length hits.items ≤ steps.old
        + hit_cost (image_of hit.now.view.now) (length hit.now.file.now) hit.now.row * length hits.items }
{
    let count = hits.len();
    if count < 4 {
        let few = hits.as_slice();
        return one_by_one(hit, few, marks, list, steps);
    }
    hits.sort_unstable();
    let sorted = hits.as_slice();
    in_a_walk(alloc, hit, sorted, marks, list, steps)
}

// The first of some hits.
fn first_of(hits: &[u32]) -> u32
    requires { 0 < length hits.now }
    ensures { Contains hits.now result }
{
    hits[0]
}

/// The matches that hits of one split give are added to a list: at least one for each start that has an end, with the
/// best end of its hits, in any order. The hits, each the number of bytes up to the atom's end, come in any order.
pub fn sweep<L: Ledger>(
    alloc: Global,
    view: &ImageView<'_>,
    file: &[u8],
    split: u32,
    hits: Vec<u32>,
    marks: &mut Marks,
    list: &mut Vec<(u32, u32)>,
    steps: &mut Steps<L>,
) -> Result<(), NoMemory>
    requires wellformed { IsWellformed (shown_bytes view.now) }
    requires small { length file.now ≤ 2 ^ 28 }
    requires split { split < length (image_of view.now).splits }
    requires hits { AreHitsOf (image_of view.now) file.now split hits.items }
    requires room { HasRoom (image_of view.now) marks.old.room }
    ensures sweeps { OnOk result (Sweeps (image_of view.now) file.now split hits.items list.old.items list.new.items) }
    ensures room { marks.new.room ≡ marks.old.room }
    ensures least_cost { steps.old ≤ steps.new }
    ensures most_cost { steps.new + length hits.items ≤ steps.old + length hits.items * output_cost (image_of view.now) (length file.now) split }
{
    let count = hits.len();
    if count == 0 {
        return Ok(());
    }
    let all = hits.as_slice();
    let first = first_of(all) as usize;
    let hit = hit_of(view, file, split, first);
    sweep_split(alloc, &hit, hits, marks, list, steps)
}
