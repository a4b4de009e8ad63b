//! The hits of one split that were left for later.

ghost use Rattle.std.specs.Prelude.{◌≡◌, ◌+◌, ◌*◌, ◌<◌, ◌≤◌, length, OnOk};
ghost use Rattle.yr_image.specs.Views.{image_of};
ghost use Rattle.yr_answer.specs.Found.{items_of};
ghost use Rattle.yr_hits.specs.Programs.{HasRoom};
ghost use Rattle.yr_hits.specs.Sweeps.{AreHitsOf};
ghost use Rattle.yr_search.specs.State.{cost_later};
ghost use Rattle.yr_search.specs.Taking.{IsGoodScene, Adds};

use crate::scene::Scene;
use std::alloc::Global;
use std::sync::ledger::Ledger;
use yr_base::{NoMemory, Steps};
use yr_hits::sweep;
use yr_moves::Marks;

/// The matches that these hits of a split give are added to the list of its string.
pub(crate) fn take_left<L: Ledger>(
    alloc: Global,
    scene: &Scene<'_>,
    split: u32,
    hits: Vec<u32>,
    marks: &mut Marks,
    lists: &mut Vec<Vec<(u32, u32)>>,
    steps: &mut Steps<L>,
) -> Result<(), NoMemory>
    requires scene { IsGoodScene scene.now }
    requires split { split < length (image_of scene.now.view.now).splits }
    requires hits { AreHitsOf (image_of scene.now.view.now) scene.now.file.now split hits.items }
    requires room { HasRoom (image_of scene.now.view.now) marks.old.room }
    requires lists { length lists.old.items ≡ length (image_of scene.now.view.now).strings }
    ensures adds { OnOk result (Adds (image_of scene.now.view.now) scene.now.file.now split hits.items (items_of lists.old.items) (items_of lists.new.items)) }
    ensures room { marks.new.room ≡ marks.old.room }
    ensures lists { length lists.new.items ≡ length lists.old.items }
    ensures least_cost { steps.old ≤ steps.new }
    ensures most_cost { steps.new ≤ steps.old
        + length hits.items * cost_later (image_of scene.now.view.now) (length scene.now.file.now) split }
{
    if hits.is_empty() {
        return Ok(());
    }
    let row = scene.view.split(split);
    let list = &mut lists[row.string as usize];
    sweep(
        alloc, scene.view, scene.file, split, hits, marks, list, steps,
    )
}
