//! Which output rows each split has.

ghost use Rattle.std.specs.Prelude.{◌≡◌, ◌+◌, ◌<◌, length, None, IfOk, IfSome};
ghost use Rattle.yr_rows.specs.Nodes.{outputs_end, end_before};
ghost use Rattle.yr_rows.specs.Words.{HasOneParent, HasOneOutput, IsWordOf};
ghost use Rattle.yr_automaton.specs.Atoms.{word};
ghost use Rattle.yr_cert.specs.Faults.{IsLeast, IsTwice};
ghost use Rattle.yr_cert.specs.Tries.{IsReadable, AreParents, AreHomes, nodes_in, edges_in, outputs_in, edge_in};

use crate::home::Home;
use crate::parent::Parent;
use crate::spelling::word_at;
use crate::trie::Trie;
use std::alloc::Global;
use yr_base::{Atom, NoMemory};
use yr_rows::{node_at, output_at};

// Notes the output rows of one node, which has the word.
fn note_outputs(trie: &Trie<'_>, node: u32, atom: Atom, homes: &mut Vec<Home>)
    requires readable { IsReadable trie.now }
    requires inside { node < length (nodes_in trie.now) }
    requires spelled { IsWordOf (edge_in trie.now) (word atom) node }
    requires before { AreHomes trie.now (end_before outputs_end (nodes_in trie.now) node) homes.old.items }
    ensures { AreHomes trie.now (end_before outputs_end (nodes_in trie.now) (node + 1)) homes.new.items }
{
    let row = node_at(trie.rows.nodes, node as usize);
    let first = row.first_output as usize;
    for k in first..first + row.outputs as usize {
        let split = output_at(trie.rows.outputs, k) as usize;
        homes[split] = homes[split].with(atom);
    }
}

/// Which output rows each split has, of all output rows.
pub(crate) fn homes_of(
    alloc: Global,
    trie: &Trie<'_>,
    parents: &[Parent],
) -> Result<Vec<Home>, NoMemory>
    requires readable { IsReadable trie.now }
    requires parents { AreParents trie.now (length (edges_in trie.now)) parents.now }
    requires one { HasOneParent (length (nodes_in trie.now)) (edges_in trie.now) }
    ensures { IfOk result (λ homes. AreHomes trie.now (length (outputs_in trie.now)) homes.items) }
{
    let mut homes = vec![in alloc; Home::NoOutput; trie.splits as usize]?;
    for node in 0..trie.nodes {
        let atom = word_at(trie, parents, node);
        note_outputs(trie, node, atom, &mut homes);
    }
    Ok(homes)
}

/// The first split that has more than one output row.
pub(crate) fn doubled(trie: &Trie<'_>, homes: &[Home]) -> Option<u32>
    requires readable { IsReadable trie.now }
    requires homes { AreHomes trie.now (length (outputs_in trie.now)) homes.now }
    ensures none { result ≡ None → HasOneOutput (outputs_in trie.now) }
    ensures least { IfSome result (IsLeast (IsTwice trie.now.splits (outputs_in trie.now))) }
{
    for split in 0..trie.splits {
        if homes[split as usize].is_many() {
            return Some(split);
        }
    }
    None
}
