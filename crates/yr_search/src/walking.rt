//! The walk of the automaton over a file.

ghost use Rattle.std.specs.Prelude.{◌≡◌, ℕ, ◌+◌, ◌*◌, ◌^◌, ◌<◌, ◌≤◌, false, length, slice_get, slice_index, Some, OnOk, IfOk};
ghost use Rattle.yr_image.specs.Views.{image_of};
ghost use Rattle.yr_machine.specs.Budget.{output_cost};
ghost use Rattle.yr_hits.specs.Programs.{HasRoom};
ghost use Rattle.yr_search.specs.State.{state_of, IsFor, owed};
ghost use Rattle.yr_search.specs.Taking.{IsGoodScene, TakesAll, TakesFronts};
ghost use Rattle.yr_search.specs.Uppers.{own, upper, depth_of, costs};
ghost use Rattle.yr_search.specs.Skips.{AreSkips};
ghost use Rattle.yr_search.specs.Walked.{Walked, root_fronts, front_cost};

use crate::gathered::Gathered;
use crate::node::{take_own, take_upper};
use crate::scene::Scene;
use crate::skipping::next_live;
use crate::skips::Skips;
use crate::stepping::step;
use std::sync::ledger::Ledger;
use yr_base::{NoMemory, Steps};
use yr_moves::Marks;
use yr_rows::node_at;

/// Takes the hits of the outputs of node 0, which every front of the file has.
pub(crate) fn take_root<L: Ledger>(
    scene: &Scene<'_>,
    marks: &mut Marks,
    gathered: &mut Gathered,
    steps: &mut Steps<L>,
) -> Result<u64, NoMemory>
    requires scene { IsGoodScene scene.now }
    requires room { HasRoom (image_of scene.now.view.now) marks.old.room }
    requires gathered { IsFor (image_of scene.now.view.now) scene.now.file.now gathered.old }
    ensures takes { OnOk result (TakesFronts (image_of scene.now.view.now) scene.now.file.now 0
        (root_fronts (image_of scene.now.view.now) scene.now.file.now) (state_of gathered.old) (state_of gathered.new)) }
    ensures count { IfOk result (λ count. count ≡ (length scene.now.file.now + 1) * length (own (image_of scene.now.view.now) 0)) }
    ensures room { marks.new.room ≡ marks.old.room }
    ensures gathered { OnOk result (IsFor (image_of scene.now.view.now) scene.now.file.now gathered.new) }
    ensures least_cost { IfOk result (λ count. steps.old + count ≤ steps.new) }
    ensures most_cost { steps.new + owed (image_of scene.now.view.now) (length scene.now.file.now) (state_of gathered.new)
        ≤ steps.old + owed (image_of scene.now.view.now) (length scene.now.file.now) (state_of gathered.old) + (length scene.now.file.now + 1)
        * costs (output_cost (image_of scene.now.view.now) (length scene.now.file.now)) (own (image_of scene.now.view.now) 0) }
{
    let mut count = 0;
    if node_at(scene.automaton.nodes, 0).outputs == 0 {
        return Ok(count);
    }
    for at in 0..scene.file.len() + 1 {
        count += take_own(scene, 0, at, marks, gathered, steps)?;
    }
    Ok(count)
}

// Where the search goes on from a place: at node 0 with the next live pair, and at another node there.
fn place_from(skips: &Skips, file: &[u8], node: u32, at: usize) -> usize
    requires long { length skips.now.live.items ≡ 65536 }
    requires at { at < length file.now }
    ensures low { at ≤ result }
    ensures high { result < length file.now }
    ensures passed { (k : ℕ) → at ≤ k → k < result → (node ≡ 0)
        × (slice_get skips.now.live.items (slice_index file.now k * 256 + slice_index file.now (k + 1)) ≡ Some false) }
    ensures bytes { (k : ℕ) → slice_index file.now k < 256 }
{
    if node == 0 {
        return next_live(&skips.live, file, at);
    }
    at
}

// Takes the hits at a node but for those of node 0, if there are any, and says how many there are.
fn take_flagged<L: Ledger>(
    scene: &Scene<'_>,
    skips: &Skips,
    node: u32,
    at: usize,
    marks: &mut Marks,
    gathered: &mut Gathered,
    steps: &mut Steps<L>,
) -> Result<u64, NoMemory>
    requires scene { IsGoodScene scene.now }
    requires skips { AreSkips (image_of scene.now.view.now) skips.now }
    requires node { node < length (image_of scene.now.view.now).nodes }
    requires at { at ≤ length scene.now.file.now }
    requires depth { depth_of (image_of scene.now.view.now) node ≤ at }
    requires room { HasRoom (image_of scene.now.view.now) marks.old.room }
    requires gathered { IsFor (image_of scene.now.view.now) scene.now.file.now gathered.old }
    requires few { length (upper (image_of scene.now.view.now) node) < 2 ^ 32 }
    ensures takes { OnOk result (TakesAll (image_of scene.now.view.now) scene.now.file.now at
        (upper (image_of scene.now.view.now) node) (state_of gathered.old) (state_of gathered.new)) }
    ensures count { IfOk result (λ count. count ≡ length (upper (image_of scene.now.view.now) node)) }
    ensures room { marks.new.room ≡ marks.old.room }
    ensures gathered { OnOk result (IsFor (image_of scene.now.view.now) scene.now.file.now gathered.new) }
    ensures least_cost { IfOk result (λ count. steps.old + count ≤ steps.new) }
    ensures most_cost { steps.new + owed (image_of scene.now.view.now) (length scene.now.file.now) (state_of gathered.new)
        ≤ steps.old + owed (image_of scene.now.view.now) (length scene.now.file.now) (state_of gathered.old)
        + costs (output_cost (image_of scene.now.view.now) (length scene.now.file.now)) (upper (image_of scene.now.view.now) node) }
{
    if !skips.flags[node as usize] {
        return Ok(0);
    }
    take_upper(scene, node, at, marks, gathered, steps)
}

/// Walks over the file, and takes the hits of all outputs but those of node 0.
#[inline(never)]
pub(crate) fn walk<L: Ledger>(
    scene: &Scene<'_>,
    skips: &Skips,
    marks: &mut Marks,
    gathered: &mut Gathered,
    steps: &mut Steps<L>,
) -> Result<u64, NoMemory>
    requires scene { IsGoodScene scene.now }
    requires skips { AreSkips (image_of scene.now.view.now) skips.now }
    requires room { HasRoom (image_of scene.now.view.now) marks.old.room }
    requires gathered { IsFor (image_of scene.now.view.now) scene.now.file.now gathered.old }
    ensures walked { IfOk result (λ count. Walked (image_of scene.now.view.now) scene.now.file.now (length scene.now.file.now)
        (state_of gathered.old) (state_of gathered.new) count) }
    ensures small { IfOk result (λ count. count ≤ length scene.now.file.now * 1073741824) }
    ensures room { marks.new.room ≡ marks.old.room }
    ensures gathered { OnOk result (IsFor (image_of scene.now.view.now) scene.now.file.now gathered.new) }
    ensures least_cost { IfOk result (λ count. steps.old + count ≤ steps.new) }
    ensures most_cost { steps.new + owed (image_of scene.now.view.now) (length scene.now.file.now) (state_of gathered.new) + length scene.now.file.now
        * costs (output_cost (image_of scene.now.view.now) (length scene.now.file.now)) (own (image_of scene.now.view.now) 0)
        ≤ steps.old + owed (image_of scene.now.view.now) (length scene.now.file.now) (state_of gathered.old) + 5 * length scene.now.file.now
        + length scene.now.file.now * front_cost (image_of scene.now.view.now) (length scene.now.file.now) }
{
    let mut count = 0;
    let mut node = 0;
    let mut at = 0;
    'along: while at < scene.file.len() {
        let place = place_from(skips, scene.file, node, at);
        node = step(scene, skips, node, scene.file[place], steps);
        at = place + 1;
        count += take_flagged(scene, skips, node, at, marks, gathered, steps)?;
    }
    Ok(count)
}
