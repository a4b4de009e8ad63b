//! The hits at a node of the automaton.

ghost use Rattle.std.specs.Prelude.{◌≡◌, ◌+◌, ◌<◌, ◌≤◌, ◌^◌, length, OnOk, IfOk};
ghost use Rattle.yr_image.specs.Views.{image_of};
ghost use Rattle.yr_machine.specs.Budget.{output_cost};
ghost use Rattle.yr_hits.specs.Programs.{HasRoom};
ghost use Rattle.yr_search.specs.State.{state_of, IsFor, owed};
ghost use Rattle.yr_search.specs.Taking.{IsGoodScene, TakesAll};
ghost use Rattle.yr_search.specs.Uppers.{own, upper, depth_of, costs};

use crate::gathered::Gathered;
use crate::scene::Scene;
use crate::taking::take_hit;
use std::sync::ledger::Ledger;
use yr_base::{NoMemory, Steps};
use yr_moves::Marks;
use yr_rows::{node_at, output_at};

/// Takes the hits of a node's own outputs, and says how many there are.
pub(crate) fn take_own<L: Ledger>(
    scene: &Scene<'_>,
    node: u32,
    at: usize,
    marks: &mut Marks,
    gathered: &mut Gathered,
    steps: &mut Steps<L>,
) -> Result<u64, NoMemory>
    requires scene { IsGoodScene scene.now }
    requires node { node < length (image_of scene.now.view.now).nodes }
    requires at { at ≤ length scene.now.file.now }
    requires depth { depth_of (image_of scene.now.view.now) node ≤ at }
    requires room { HasRoom (image_of scene.now.view.now) marks.old.room }
    requires gathered { IsFor (image_of scene.now.view.now) scene.now.file.now gathered.old }
    ensures takes { OnOk result (TakesAll (image_of scene.now.view.now) scene.now.file.now at
        (own (image_of scene.now.view.now) node) (state_of gathered.old) (state_of gathered.new)) }
    ensures count { IfOk result (λ count. count ≡ length (own (image_of scene.now.view.now) node)) }
    ensures room { marks.new.room ≡ marks.old.room }
    ensures gathered { OnOk result (IsFor (image_of scene.now.view.now) scene.now.file.now gathered.new) }
    ensures least_cost { IfOk result (λ count. steps.old + count ≤ steps.new) }
    ensures most_cost { steps.new + owed (image_of scene.now.view.now) (length scene.now.file.now) (state_of gathered.new)
        ≤ steps.old + owed (image_of scene.now.view.now) (length scene.now.file.now) (state_of gathered.old)
        + costs (output_cost (image_of scene.now.view.now) (length scene.now.file.now)) (own (image_of scene.now.view.now) node) }
{
    let row = node_at(scene.automaton.nodes, node as usize);
    let first = row.first_output as usize;
    for k in 0..row.outputs as usize {
        let split = output_at(scene.automaton.outputs, first + k);
        take_hit(scene, split, at, marks, gathered, steps)?;
    }
    Ok(u64::from(row.outputs))
}

/// Takes the hits of the outputs at a node but for those of node 0, and says how many there are.
#[inline(never)]
pub(crate) fn take_upper<L: Ledger>(
    scene: &Scene<'_>,
    node: u32,
    at: usize,
    marks: &mut Marks,
    gathered: &mut Gathered,
    steps: &mut Steps<L>,
) -> Result<u64, NoMemory>
    requires scene { IsGoodScene scene.now }
    requires node { node < length (image_of scene.now.view.now).nodes }
    requires at { at ≤ length scene.now.file.now }
    requires depth { depth_of (image_of scene.now.view.now) node ≤ at }
    requires room { HasRoom (image_of scene.now.view.now) marks.old.room }
    requires gathered { IsFor (image_of scene.now.view.now) scene.now.file.now gathered.old }
    requires few { length (upper (image_of scene.now.view.now) node) < 2 ^ 32 }
    ensures takes { OnOk result (TakesAll (image_of scene.now.view.now) scene.now.file.now at
        (upper (image_of scene.now.view.now) node) (state_of gathered.old) (state_of gathered.new)) }
    ensures count { IfOk result (λ count. count ≡ length (upper (image_of scene.now.view.now) node)) }
    ensures room { marks.new.room ≡ marks.old.room }
    ensures gathered { OnOk result (IsFor (image_of scene.now.view.now) scene.now.file.now gathered.new) }
    ensures least_cost { IfOk result (λ count. steps.old + count ≤ steps.new) }
    ensures most_cost { steps.new + owed (image_of scene.now.view.now) (length scene.now.file.now) (state_of gathered.new)
        ≤ steps.old + owed (image_of scene.now.view.now) (length scene.now.file.now) (state_of gathered.old)
        + costs (output_cost (image_of scene.now.view.now) (length scene.now.file.now)) (upper (image_of scene.now.view.now) node) }
{
    let mut up = node;
    let mut count = 0;
    'rising: while up != 0 {
        count += take_own(scene, up, at, marks, gathered, steps)?;
        up = node_at(scene.automaton.nodes, up as usize).failure;
    }
    Ok(count)
}
