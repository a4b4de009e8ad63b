//! Hits one after another.

ghost use Rattle.std.specs.Prelude.{◌≡◌, ◌+◌, ◌*◌, ◌≤◌, length, OnOk};
ghost use Rattle.yr_image.specs.Views.{image_of};
ghost use Rattle.yr_machine.specs.Budget.{hit_cost};
ghost use Rattle.yr_hits.specs.Programs.{HasRoom};
ghost use Rattle.yr_hits.specs.Gathering.{Grows};
ghost use Rattle.yr_hits.specs.Spans.{IsGoodHit};
ghost use Rattle.yr_hits.specs.Sweeps.{AreHits, SpansOfAll};

use crate::counting::moved;
use crate::{Hit, add_matches};
use std::sync::ledger::Ledger;
use yr_base::{NoMemory, Steps};
use yr_moves::Marks;

/// The matches of hits of the split of a hit, each taken apart by itself.
pub fn one_by_one<L: Ledger>(
    hit: &Hit<'_>,
    hits: &[u32],
    marks: &mut Marks,
    list: &mut Vec<(u32, u32)>,
    steps: &mut Steps<L>,
) -> Result<(), NoMemory>
    requires good { IsGoodHit hit.now }
    requires hits { AreHits hit.now hits.now }
    requires room { HasRoom (image_of hit.now.view.now) marks.old.room }
    ensures grows { OnOk result (Grows (SpansOfAll hit.now hits.now) hit.now.greatest list.old.items list.new.items) }
    ensures room { marks.new.room ≡ marks.old.room }
    ensures least_cost { steps.old ≤ steps.new }
    ensures most_cost { steps.new + length hits.now ≤ steps.old
        + hit_cost (image_of hit.now.view.now) (length hit.now.file.now) hit.now.row * length hits.now }
{
    let mut k = hits.len();
    'along: while k > 0 {
        k -= 1;
        add_matches(&moved(hit, hits[k]), marks, list, steps)?;
    }
    Ok(())
}
