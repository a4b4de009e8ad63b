//! The strings of rules in an image.

ghost use Rattle.std.specs.Prelude.{◌≡◌, [], OnOk};
ghost use Rattle.yr_rules.specs.Rules.{rules_of};
ghost use Rattle.yr_splits.specs.Filling.{PutsStrings};

use crate::automaton::put_automaton;
use crate::string::put_rows;
use std::alloc::Global;
use yr_base::NoMemory;
use yr_draft::ImageDraft;
use yr_rules::CheckedRules;

/// Puts the strings of rules into an image that has none, with the automaton of their atoms. After a refusal nothing is said of the image.
pub fn put_strings(
    alloc: Global,
    draft: &mut ImageDraft,
    rules: &CheckedRules,
) -> Result<(), NoMemory>
    requires no_strings { draft.old.strings ≡ [] }
    requires no_splits { draft.old.splits ≡ [] }
    requires no_nodes { draft.old.nodes ≡ [] }
    requires no_edges { draft.old.edges ≡ [] }
    requires no_outputs { draft.old.outputs ≡ [] }
    ensures { OnOk result (PutsStrings draft.old draft.new (rules_of rules.now).strings) }
{
    let atoms = put_rows(alloc, draft, rules.strings())?;
    put_automaton(alloc, draft, &atoms)?;
    Ok(())
}
