//! Which edges lead to each node.

ghost use Rattle.std.specs.Prelude.{◌≡◌, ◌+◌, ◌<◌, ◌≢◌, length, Some, None, IfOk, IfSome, slice_get};
ghost use Rattle.yr_rows.specs.Nodes.{edges_end, end_before};
ghost use Rattle.yr_rows.specs.Words.{HasOneParent};
ghost use Rattle.yr_cert.specs.Faults.{IsLeast, HasNoParent};
ghost use Rattle.yr_cert.specs.Tries.{IsReadable, AreParents, nodes_in, edges_in};

use crate::parent::{Parent, Step};
use crate::trie::Trie;
use std::alloc::Global;
use yr_base::NoMemory;
use yr_rows::{edge_at, node_at};

// Notes the edges of one node.
fn note_edges(trie: &Trie<'_>, source: u32, parents: &mut Vec<Parent>)
    requires readable { IsReadable trie.now }
    requires inside { source < length (nodes_in trie.now) }
    requires before { AreParents trie.now (end_before edges_end (nodes_in trie.now) source) parents.old.items }
    ensures { AreParents trie.now (end_before edges_end (nodes_in trie.now) (source + 1)) parents.new.items }
{
    let row = node_at(trie.rows.nodes, source as usize);
    let first = row.first_edge as usize;
    for k in first..first + row.edges as usize {
        let edge = edge_at(trie.rows.edges, k);
        let step = Step {
            source,
            byte: edge.byte as u8,
        };
        parents[edge.target as usize] = parents[edge.target as usize].with(step);
    }
}

/// Which edges lead to each node, of all edges.
pub(crate) fn parents_of(alloc: Global, trie: &Trie<'_>) -> Result<Vec<Parent>, NoMemory>
    requires { IsReadable trie.now }
    ensures { IfOk result (λ parents. AreParents trie.now (length (edges_in trie.now)) parents.items) }
{
    let mut parents = vec![in alloc; Parent::NoEdge; trie.nodes as usize]?;
    for source in 0..trie.nodes {
        note_edges(trie, source, &mut parents);
    }
    Ok(parents)
}

/// The first node other than node 0 to which not exactly one edge leads.
pub(crate) fn orphan(trie: &Trie<'_>, parents: &[Parent]) -> Option<u32>
    requires readable { IsReadable trie.now }
    requires parents { AreParents trie.now (length (edges_in trie.now)) parents.now }
    ensures none { result ≡ None → HasOneParent (length (nodes_in trie.now)) (edges_in trie.now) }
    ensures least { IfSome result (IsLeast (HasNoParent (nodes_in trie.now) (edges_in trie.now))) }
{
    for n in 1..trie.nodes {
        if !parents[n as usize].is_one() {
            return Some(n);
        }
    }
    None
}
