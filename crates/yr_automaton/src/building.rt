//! The rows for given atoms. Node n has the word of the n-th key, and edge n leads to node n + 1.

ghost use Rattle.std.specs.Prelude.{◌≡◌, ℕ, ◌+◌, ◌^◌, ◌<◌, ◌≤◌, length, slice_index, map, IfOk};
ghost use Rattle.yr_rows.specs.Nodes.{nodes_of, edges_of, outputs_of, AreWhole, Each};
ghost use Rattle.yr_automaton.specs.Atoms.{words_of};
ghost use Rattle.yr_automaton.specs.Keys.{AreKeys, AreShort, AreStarts, IsKeyedNode, IsEdgeTo, IsParent};
ghost use Rattle.yr_automaton.specs.Prepared.{Prepared};
ghost use Rattle.yr_automaton.specs.Automaton.{IsAutomatonOf};

use crate::automaton::Automaton;
use crate::encoding::{put_edge, put_node, put_output};
use crate::key::{depth_of, failure_of};
use crate::prefix::prepare;
use crate::run::runs;
use std::alloc::Global;
use yr_base::{Atom, NoMemory};
use yr_rows::{EdgeRow, NodeRow};

// The key of the parent of each node but 0.
fn parents_of(alloc: Global, keys: &[u64]) -> Result<Vec<u64>, NoMemory>
    requires { AreKeys keys.now }
    ensures count { IfOk result (λ parents. length parents.items + 1 ≡ length keys.now) }
    ensures each { IfOk result (λ parents. Each (IsParent keys.now) parents.items) }
{
    let mut parents = Vec::new(alloc);
    for k in 1..keys.len() {
        parents.push((keys[k] - 1) / 256)?;
    }
    Ok(parents)
}

// The bytes of the nodes, whose edges and outputs begin at these places.
fn node_bytes(
    alloc: Global,
    keys: &[u64],
    edges: &[u32],
    outputs: &[u32],
) -> Result<Vec<u8>, NoMemory>
    requires keys { AreKeys keys.now }
    requires few { length keys.now < 2 ^ 32 }
    requires short { AreShort keys.now }
    requires edges { AreStarts keys.now edges.now }
    requires outputs { AreStarts keys.now outputs.now }
    ensures whole { IfOk result (λ bytes. AreWhole 24 bytes.items) }
    ensures count { IfOk result (λ bytes. length (nodes_of bytes.items) ≡ length keys.now) }
    ensures each { IfOk result
        (λ bytes. Each (IsKeyedNode keys.now edges.now outputs.now) (nodes_of bytes.items)) }
{
    let mut bytes = Vec::new(alloc);
    for n in 0..keys.len() {
        let key = keys[n];
        let failure = if key == 0 { 0 } else { failure_of(keys, key) };
        let row = NodeRow {
            first_edge: edges[n],
            edges: edges[n + 1] - edges[n],
            failure: failure as u32,
            depth: depth_of(key) as u32,
            first_output: outputs[n],
            outputs: outputs[n + 1] - outputs[n],
        };
        put_node(&mut bytes, &row)?;
    }
    Ok(bytes)
}

// The bytes of the edges.
fn edge_bytes(alloc: Global, keys: &[u64]) -> Result<Vec<u8>, NoMemory>
    requires keys { AreKeys keys.now }
    requires few { length keys.now < 2 ^ 32 }
    ensures whole { IfOk result (λ bytes. AreWhole 8 bytes.items) }
    ensures count { IfOk result (λ bytes. length (edges_of bytes.items) + 1 ≡ length keys.now) }
    ensures each { IfOk result (λ bytes. Each (IsEdgeTo keys.now) (edges_of bytes.items)) }
{
    let mut bytes = Vec::new(alloc);
    for target in 1..keys.len() {
        let row = EdgeRow {
            byte: ((keys[target] - 1) % 256) as u32,
            target: target as u32,
        };
        put_edge(&mut bytes, &row)?;
    }
    Ok(bytes)
}

// The bytes of the outputs, which are the atoms' numbers in the order of their keys.
fn output_bytes(alloc: Global, numbered: &[(u64, u32)]) -> Result<Vec<u8>, NoMemory>
    ensures whole { IfOk result (λ bytes. AreWhole 4 bytes.items) }
    ensures outputs { IfOk result (λ bytes. outputs_of bytes.items ≡ map (λ p. p.1) numbered.now) }
{
    let mut bytes = Vec::new(alloc);
    for atom in numbered {
        put_output(&mut bytes, atom.1)?;
    }
    Ok(bytes)
}

// The keys of the atoms in order.
fn homes_of(alloc: Global, numbered: &[(u64, u32)]) -> Result<Vec<u64>, NoMemory>
    ensures { IfOk result (λ homes. homes.items ≡ map (λ p. p.0) numbered.now) }
{
    let homes = numbered.iter().map(|atom| atom.0).collect(alloc)?;
    Ok(homes)
}

// The rows of the nodes that have these keys.
fn rows_of(
    alloc: Global,
    atoms: &[Atom],
    keys: &[u64],
    numbered: &[(u64, u32)],
) -> Result<Automaton, NoMemory>
    requires few { length atoms.now < 2 ^ 30 }
    requires prepared { Prepared atoms.now keys.now numbered.now }
    ensures { IfOk result (IsAutomatonOf (words_of atoms.now)) }
{
    let parents = parents_of(alloc, keys)?;
    let homes = homes_of(alloc, numbered)?;
    let edge_starts = runs(alloc, keys, &parents)?;
    let output_starts = runs(alloc, keys, &homes)?;
    let nodes = node_bytes(alloc, keys, &edge_starts, &output_starts)?;
    let edges = edge_bytes(alloc, keys)?;
    let outputs = output_bytes(alloc, numbered)?;
    Ok(Automaton {
        nodes,
        edges,
        outputs,
    })
}

/// The automaton that finds atoms, of which several may be equal and one may be empty.
pub fn build(alloc: Global, atoms: &[Atom]) -> Result<Automaton, NoMemory>
    requires { length atoms.now < 2 ^ 30 }
    ensures { IfOk result (IsAutomatonOf (words_of atoms.now)) }
{
    let (keys, numbered) = prepare(alloc, atoms)?;
    rows_of(alloc, atoms, &keys, &numbered)
}
