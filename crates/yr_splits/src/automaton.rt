//! The automaton of the atoms of splits.

ghost use Rattle.std.specs.Prelude.{◌≡◌, ◌+◌, ◌≤◌, ◌^◌, ◌<◌, ◌++◌, [], length, OnOk};
ghost use Rattle.yr_automaton.specs.Atoms.{words_of};
ghost use Rattle.yr_splits.specs.Filling.{PutsAutomaton};

use std::alloc::Global;
use yr_automaton::build;
use yr_base::{Atom, NoMemory};
use yr_draft::ImageDraft;

/// Puts the automaton of atoms, of which each has the number of its split.
pub fn put_automaton(alloc: Global, draft: &mut ImageDraft, atoms: &[Atom]) -> Result<(), NoMemory>
    requires few { length atoms.now < 2 ^ 30 }
    requires no_nodes { draft.old.nodes ≡ [] }
    requires no_edges { draft.old.edges ≡ [] }
    requires no_outputs { draft.old.outputs ≡ [] }
    ensures { OnOk result (PutsAutomaton draft.old draft.new (words_of atoms.now)) }
{
    let automaton = build(alloc, atoms)?;
    let rows = automaton.rows();
    draft.put_automaton(rows.nodes, rows.edges, rows.outputs)?;
    Ok(())
}
