//! One hit: the matches that it gives are added to the list of its string, or it is left for later.

ghost use Rattle.std.specs.Prelude.{◌≡◌, ◌+◌, ◌^◌, ◌<◌, ◌≤◌, length, OnOk, OnErr};
ghost use Rattle.yr_image.specs.Views.{image_of};
ghost use Rattle.yr_machine.specs.Budget.{output_cost, side_moves};
ghost use Rattle.yr_hits.specs.Programs.{HasRoom};
ghost use Rattle.yr_hits.specs.Spans.{HasAtomWithin};
ghost use Rattle.yr_search.specs.State.{state_of, IsFor, owed};
ghost use Rattle.yr_search.specs.Taking.{IsGoodScene, Takes, TakesNow, Leaves};

use crate::gathered::Gathered;
use crate::scene::Scene;
use std::sync::ledger::Ledger;
use yr_base::{NoMemory, Steps};
use yr_hits::{add_matches, hit_of};
use yr_image::ImageView;
use yr_moves::Marks;

// The moves of a side.
fn moves_of(view: &ImageView<'_>, kind: u8, place: u32) -> u64
    requires { kind ≡ 2 → place < length (image_of view.now).programs }
    ensures value { result ≡ side_moves (image_of view.now) kind place }
    ensures small { result < 2 ^ 32 }
{
    if kind != 2 {
        return 0;
    }
    u64::from(view.program(place).moves)
}

// Whether the runs of a split's hits looked at more moves than one walk over the file with both its programs would.
#[inline(never)]
fn costs_more(scene: &Scene<'_>, split: u32, spent: u64) -> bool
    requires scene { IsGoodScene scene.now }
    requires split { split < length (image_of scene.now.view.now).splits }
{
    let row = scene.view.split(split);
    let moves = moves_of(scene.view, row.before_kind, row.before_place)
        + moves_of(scene.view, row.after_kind, row.after_place);
    let walk = (2 * moves + 1).saturating_mul(scene.file.len() as u64 + 1);
    walk < spent
}

// Whether further hits of a split are left for later: the usual hit looks nothing up.
fn is_dear(scene: &Scene<'_>, split: u32, spent: u64) -> bool
    requires scene { IsGoodScene scene.now }
    requires split { split < length (image_of scene.now.view.now).splits }
{
    spent > scene.file.len() as u64 && costs_more(scene, split, spent)
}

// The matches that a hit gives are added.
fn take_now<L: Ledger>(
    scene: &Scene<'_>,
    split: u32,
    at: usize,
    marks: &mut Marks,
    gathered: &mut Gathered,
    steps: &mut Steps<L>,
) -> Result<(), NoMemory>
    requires scene { IsGoodScene scene.now }
    requires split { split < length (image_of scene.now.view.now).splits }
    requires at { at ≤ length scene.now.file.now }
    requires atom { HasAtomWithin (image_of scene.now.view.now) at split }
    requires room { HasRoom (image_of scene.now.view.now) marks.old.room }
    requires gathered { IsFor (image_of scene.now.view.now) scene.now.file.now gathered.old }
    ensures takes { OnOk result (TakesNow (image_of scene.now.view.now) scene.now.file.now at split (state_of gathered.old) (state_of gathered.new)) }
    ensures room { marks.new.room ≡ marks.old.room }
    ensures lists { length gathered.new.lists.items ≡ length gathered.old.lists.items }
    ensures later { gathered.new.later ≡ gathered.old.later }
    ensures spent { length gathered.new.spent.items ≡ length gathered.old.spent.items }
    ensures least_cost { steps.old ≤ steps.new }
    ensures most_cost { steps.new + 1 ≤ steps.old + output_cost (image_of scene.now.view.now) (length scene.now.file.now) split }
{
    let before = marks.work();
    let hit = hit_of(scene.view, scene.file, split, at);
    let list = &mut gathered.lists[hit.row.string as usize];
    add_matches(&hit, marks, list, steps)?;
    let spent = gathered.spent[split as usize];
    gathered.spent[split as usize] = spent.saturating_add(marks.work().wrapping_sub(before));
    Ok(())
}

// A hit is left for later.
fn leave(gathered: &mut Gathered, split: u32, at: u32) -> Result<(), NoMemory>
    requires { split < length gathered.old.later.items }
    ensures leaves { OnOk result (Leaves at split (state_of gathered.old) (state_of gathered.new)) }
    ensures kept { OnErr result (state_of gathered.new ≡ state_of gathered.old) }
    ensures lists { gathered.new.lists ≡ gathered.old.lists }
    ensures spent { gathered.new.spent ≡ gathered.old.spent }
{
    gathered.later[split as usize].push(at)?;
    Ok(())
}

/// Takes a hit: the list of the split's string grows by the matches that it gives, or the hit is left for later, where
/// the split has cost more than one walk over the file for all its hits.
pub(crate) fn take_hit<L: Ledger>(
    scene: &Scene<'_>,
    split: u32,
    at: usize,
    marks: &mut Marks,
    gathered: &mut Gathered,
    steps: &mut Steps<L>,
) -> Result<(), NoMemory>
    requires scene { IsGoodScene scene.now }
    requires split { split < length (image_of scene.now.view.now).splits }
    requires at { at ≤ length scene.now.file.now }
    requires atom { HasAtomWithin (image_of scene.now.view.now) at split }
    requires room { HasRoom (image_of scene.now.view.now) marks.old.room }
    requires gathered { IsFor (image_of scene.now.view.now) scene.now.file.now gathered.old }
    ensures takes { OnOk result (Takes (image_of scene.now.view.now) scene.now.file.now at split (state_of gathered.old) (state_of gathered.new)) }
    ensures room { marks.new.room ≡ marks.old.room }
    ensures gathered { OnOk result (IsFor (image_of scene.now.view.now) scene.now.file.now gathered.new) }
    ensures least_cost { steps.old + 1 ≤ steps.new }
    ensures most_cost { steps.new + owed (image_of scene.now.view.now) (length scene.now.file.now) (state_of gathered.new)
        ≤ steps.old + owed (image_of scene.now.view.now) (length scene.now.file.now) (state_of gathered.old)
        + output_cost (image_of scene.now.view.now) (length scene.now.file.now) split }
{
    steps.tick();
    let spent = gathered.spent[split as usize];
    if is_dear(scene, split, spent) {
        return leave(gathered, split, at as u32);
    }
    take_now(scene, split, at, marks, gathered, steps)
}
