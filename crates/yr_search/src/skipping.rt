//! The tables of what a search may pass over.

ghost use Rattle.std.specs.Prelude.{◌≡◌, ◌+◌, ◌*◌, ◌<◌, ◌≤◌, ◌||◌, false, length, slice_get, slice_index, Some, IfOk, ℕ};
ghost use Rattle.yr_image.specs.Views.{image_of};
ghost use Rattle.yr_search.specs.Skips.{IsPassed, IsPairTable, AreFlags, AreSkips};
ghost use Rattle.yr_search.specs.Taking.{IsGoodScene};

use crate::scene::Scene;
use crate::skips::Skips;
use crate::stepping::first_rows;
use std::alloc::Global;
use yr_base::NoMemory;
use yr_rows::node_at;

/// How many pairs of bytes there are.
const PAIRS: u32 = 65536;

// Whether a pair of bytes is live at node 0: the first leads to a node with outputs of its own, or with an edge for
// the second.
fn is_live(scene: &Scene<'_>, first: u8, second: u8) -> bool
    requires { IsGoodScene scene.now }
    ensures { result ≡ false → IsPassed (image_of scene.now.view.now) first second }
{
    let Some(node) = scene.automaton.edge(0, first) else {
        return false;
    };
    if node_at(scene.automaton.nodes, node as usize).outputs != 0 {
        return true;
    }
    scene.automaton.edge(node, second).is_some()
}

// For each pair of bytes, whether it is live.
fn pair_table(alloc: Global, scene: &Scene<'_>) -> Result<Vec<bool>, NoMemory>
    requires { IsGoodScene scene.now }
    ensures { IfOk result (λ table. IsPairTable (image_of scene.now.view.now) table.items) }
{
    let mut table = Vec::new(alloc);
    for pair in 0..PAIRS {
        table.push(is_live(scene, (pair / 256) as u8, (pair % 256) as u8))?;
    }
    Ok(table)
}

fn either(a: bool, b: bool) -> bool
    ensures { result ≡ (a || b) }
{
    a || b
}

// For each node, whether there is an output along its failure links, but for those of node 0.
fn output_flags(alloc: Global, scene: &Scene<'_>) -> Result<Vec<bool>, NoMemory>
    requires { IsGoodScene scene.now }
    ensures { IfOk result (λ flags. AreFlags (image_of scene.now.view.now) flags.items) }
{
    let mut flags = Vec::new(alloc);
    flags.push(false)?;
    for node in 1..scene.view.rows(8) {
        let row = node_at(scene.automaton.nodes, node as usize);
        let up = flags[row.failure as usize];
        flags.push(either(row.outputs != 0, up))?;
    }
    Ok(flags)
}

/// The tables of an image.
pub(crate) fn skips_of(alloc: Global, scene: &Scene<'_>) -> Result<Skips, NoMemory>
    requires { IsGoodScene scene.now }
    ensures { IfOk result (AreSkips (image_of scene.now.view.now)) }
{
    let live = pair_table(alloc, scene)?;
    let flags = output_flags(alloc, scene)?;
    let rows = first_rows(alloc, scene)?;
    Ok(Skips { live, flags, rows })
}

// Whether a place's pair of bytes is live.
fn is_live_at(table: &[bool], file: &[u8], at: usize) -> bool
    requires long { length table.now ≡ 65536 }
    requires at { at + 1 < length file.now }
    ensures { slice_get table.now (slice_index file.now at * 256 + slice_index file.now (at + 1)) ≡ Some result }
{
    table[file[at] as usize * 256 + file[at + 1] as usize]
}

// Whether the pair of one of four places is live.
fn is_any_live(table: &[bool], file: &[u8], at: usize) -> bool
    requires long { length table.now ≡ 65536 }
    requires at { at + 4 < length file.now }
    ensures { result ≡ false → (k : ℕ) → at ≤ k → k < at + 4
        → slice_get table.now (slice_index file.now k * 256 + slice_index file.now (k + 1)) ≡ Some false }
{
    is_live_at(table, file, at)
        | is_live_at(table, file, at + 1)
        | is_live_at(table, file, at + 2)
        | is_live_at(table, file, at + 3)
}

// A place from `from` on before which no pair is live, four places at a time.
fn pass_fours(table: &[bool], file: &[u8], from: usize) -> usize
    requires long { length table.now ≡ 65536 }
    requires from { from < length file.now }
    ensures low { from ≤ result }
    ensures high { result < length file.now }
    ensures passed { (k : ℕ) → from ≤ k → k < result
        → slice_get table.now (slice_index file.now k * 256 + slice_index file.now (k + 1)) ≡ Some false }
{
    let last = file.len() - 1;
    let mut at = from;
    while last - at >= 4 && !is_any_live(table, file, at) {
        at += 4;
    }
    at
}

/// The least place from `from` on whose pair of bytes is live, or else the last place.
// Apart from its callers the loop keeps its places in registers.
#[inline(never)]
pub(crate) fn next_live(table: &[bool], file: &[u8], from: usize) -> usize
    requires long { length table.now ≡ 65536 }
    requires from { from < length file.now }
    ensures low { from ≤ result }
    ensures high { result < length file.now }
    ensures passed { (k : ℕ) → from ≤ k → k < result
        → slice_get table.now (slice_index file.now k * 256 + slice_index file.now (k + 1)) ≡ Some false }
{
    let last = file.len() - 1;
    let mut at = pass_fours(table, file, from);
    while at < last && !is_live_at(table, file, at) {
        at += 1;
    }
    at
}
