//! Whether failure nodes have the longest suffixes.

ghost use Rattle.std.specs.Prelude.{◌≡◌, ◌↔◌, ◌<◌, ◌≢◌, length, None, IfSome, IsTrue};
ghost use Rattle.yr_rows.specs.Words.{HasOneParent, LinksToLongestSuffix};
ghost use Rattle.yr_cert.specs.Faults.{IsLeast, LinksRight, LinksWrong};
ghost use Rattle.yr_cert.specs.Tries.{IsReadable, AreParents, nodes_in, edges_in, edge_in, link_in};

use crate::parent::Parent;
use crate::spelling::{longest_suffix, word_at};
use crate::trie::Trie;

// Whether the failure node of a node has the longest proper suffix of its word that is a node's word.
fn links_right(trie: &Trie<'_>, parents: &[Parent], n: u32) -> bool
    requires readable { IsReadable trie.now }
    requires parents { AreParents trie.now (length (edges_in trie.now)) parents.now }
    requires one { HasOneParent (length (nodes_in trie.now)) (edges_in trie.now) }
    requires inside { n < length (nodes_in trie.now) }
    requires other { n ≢ 0 }
    ensures { IsTrue result ↔ LinksRight (nodes_in trie.now) (edges_in trie.now) n }
{
    let atom = word_at(trie, parents, n);
    longest_suffix(trie, &atom) == trie.rows.failure(n)
}

/// The first node other than node 0 that links elsewhere.
pub(crate) fn misled(trie: &Trie<'_>, parents: &[Parent]) -> Option<u32>
    requires readable { IsReadable trie.now }
    requires parents { AreParents trie.now (length (edges_in trie.now)) parents.now }
    requires one { HasOneParent (length (nodes_in trie.now)) (edges_in trie.now) }
    ensures none { result ≡ None → LinksToLongestSuffix (edge_in trie.now) (link_in trie.now) }
    ensures least { IfSome result (IsLeast (LinksWrong (nodes_in trie.now) (edges_in trie.now))) }
{
    for n in 1..trie.nodes {
        if !links_right(trie, parents, n) {
            return Some(n);
        }
    }
    None
}
