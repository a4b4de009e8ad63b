//! Where a byte leads from a node of the automaton. The first nodes have a row for each byte.

ghost use Rattle.std.specs.Prelude.{◌≡◌, ◌+◌, ◌*◌, ◌<◌, ◌≤◌, ℕ, length, slice_get, Some, IfOk};
ghost use Rattle.yr_image.specs.Views.{image_of};
ghost use Rattle.yr_search.specs.Skips.{LeadsOn, AreRows, AreSkips};
ghost use Rattle.yr_search.specs.Taking.{IsGoodScene};

use crate::scene::Scene;
use crate::skips::Skips;
use std::alloc::Global;
use std::sync::ledger::Ledger;
use yr_base::{NoMemory, Steps};

/// How many nodes have a row: where nodes stand in the order of their depths, node 0 and all of depth 1 are among them.
const NODES_WITH_ROWS: u32 = 257;

// Where a byte leads from a node, by the rows of the nodes before it.
fn target_by(scene: &Scene<'_>, rows: &[u32], node: u32, byte: u8) -> u32
    requires scene { IsGoodScene scene.now }
    requires node { node < length (image_of scene.now.view.now).nodes }
    requires before { node * 256 ≤ length rows.now }
    requires rows { (n b x : ℕ) → b < 256 → slice_get rows.now (n * 256 + b) ≡ Some x → LeadsOn (image_of scene.now.view.now) n b x }
    ensures { LeadsOn (image_of scene.now.view.now) node byte result }
{
    if let Some(target) = scene.automaton.edge(node, byte) {
        return target;
    }
    if node == 0 {
        return 0;
    }
    let up = scene.automaton.failure(node);
    rows[up as usize * 256 + byte as usize]
}

/// The rows of the first nodes.
pub(crate) fn first_rows(alloc: Global, scene: &Scene<'_>) -> Result<Vec<u32>, NoMemory>
    requires { IsGoodScene scene.now }
    ensures { IfOk result (λ rows. AreRows (image_of scene.now.view.now) rows.items) }
{
    let mut rows = Vec::new(alloc);
    let count = scene.view.rows(8).min(NODES_WITH_ROWS);
    for place in 0..count * 256 {
        let target = target_by(scene, &rows, place / 256, (place % 256) as u8);
        rows.push(target)?;
    }
    Ok(rows)
}

// Where a byte leads by the row of a node, if it has one.
fn target_in_row(rows: &[u32], node: u32, byte: u8) -> Option<u32>
    ensures { result ≡ slice_get rows.now (node * 256 + byte) }
{
    rows.get(node as usize * 256 + byte as usize).copied()
}

/// The node that a byte leads to. It is one step, however many nodes are asked.
pub(crate) fn step<L: Ledger>(
    scene: &Scene<'_>,
    skips: &Skips,
    node: u32,
    byte: u8,
    steps: &mut Steps<L>,
) -> u32
    requires scene { IsGoodScene scene.now }
    requires skips { AreSkips (image_of scene.now.view.now) skips.now }
    requires node { node < length (image_of scene.now.view.now).nodes }
    ensures leads { LeadsOn (image_of scene.now.view.now) node byte result }
    ensures cost { steps.new ≡ steps.old + 1 }
{
    steps.tick();
    let mut at = node;
    'asking: loop {
        if let Some(target) = target_in_row(&skips.rows, at, byte) {
            return target;
        }
        if let Some(target) = scene.automaton.edge(at, byte) {
            return target;
        }
        at = scene.automaton.failure(at);
    }
}
