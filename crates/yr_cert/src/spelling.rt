//! The words of nodes, and the nodes of words.

ghost use Rattle.std.specs.Prelude.{◌≡◌, ◌<◌, ◌≤◌, ◌≢◌, length, drop, Some};
ghost use Rattle.yr_rows.specs.Words.{HasOneParent, IsWordOf, path};
ghost use Rattle.yr_automaton.specs.Atoms.{word};
ghost use Rattle.yr_cert.specs.Words.{HasLongestSuffix};
ghost use Rattle.yr_cert.specs.Tries.{IsReadable, AreParents, nodes_in, edges_in, edge_in};

use crate::parent::{Parent, Step};
use crate::trie::Trie;
use yr_base::Atom;
use yr_rows::node_at;

// The edge that leads to a node.
fn step_to(trie: &Trie<'_>, parents: &[Parent], n: u32) -> Step
    requires readable { IsReadable trie.now }
    requires parents { AreParents trie.now (length (edges_in trie.now)) parents.now }
    requires one { HasOneParent (length (nodes_in trie.now)) (edges_in trie.now) }
    requires inside { n < length (nodes_in trie.now) }
    requires other { n ≢ 0 }
    ensures { edge_in trie.now result.source result.byte ≡ Some n }
{
    match parents[n as usize] {
        Parent::OneEdge(step) => step,
        _ => Step { source: 0, byte: 0 },
    }
}

/// The word of a node, read from its end along the edges that lead to it.
pub(crate) fn word_at(trie: &Trie<'_>, parents: &[Parent], n: u32) -> Atom
    requires readable { IsReadable trie.now }
    requires parents { AreParents trie.now (length (edges_in trie.now)) parents.now }
    requires one { HasOneParent (length (nodes_in trie.now)) (edges_in trie.now) }
    requires inside { n < length (nodes_in trie.now) }
    ensures { IsWordOf (edge_in trie.now) (word result) n }
{
    let depth = node_at(trie.rows.nodes, n as usize).depth;
    let mut bytes = [0; 4];
    let mut at = n;
    let mut left = depth as usize;
    while left > 0 {
        let step = step_to(trie, parents, at);
        left -= 1;
        bytes[left] = step.byte;
        at = step.source;
    }
    Atom {
        bytes,
        len: depth as u8,
    }
}

// The node of the word from one of its bytes on.
fn find(trie: &Trie<'_>, atom: &Atom, from: usize) -> Option<u32>
    requires readable { IsReadable trie.now }
    requires inside { from ≤ atom.now.len }
    ensures { result ≡ path (edge_in trie.now) 0 (drop from (word atom.now)) }
{
    let mut node = 0;
    for at in from..atom.len as usize {
        match trie.rows.edge(node, atom.bytes[at]) {
            Some(next) => node = next,
            None => return None,
        }
    }
    Some(node)
}

/// The node with the longest proper suffix of the word that is a node's word.
pub(crate) fn longest_suffix(trie: &Trie<'_>, atom: &Atom) -> u32
    requires readable { IsReadable trie.now }
    requires some { 0 < atom.now.len }
    ensures { HasLongestSuffix (edge_in trie.now) (word atom.now) result }
{
    for from in 1..atom.len as usize {
        if let Some(node) = find(trie, atom, from) {
            return node;
        }
    }
    0
}
