//! From checked rules to the tables of an image.

ghost use Rattle.std.specs.Prelude.{◌≡◌, ℕ, ◌<◌, ◌^◌, List, IfOk, OnOk};
ghost use Rattle.yr_rules.specs.Rules.{rules_of};
ghost use Rattle.yr_rules.specs.Wellformed.{IsWellformed};
ghost use Rattle.yr_meaning.specs.Scan.{ModuleValues};
ghost use Rattle.yr_image.specs.Image.{shown};
ghost use Rattle.yr_image.specs.Encoding.{encoded, encoded_length};
ghost use Rattle.yr_image.specs.Fits.{Fits};
ghost use Rattle.yr_preserves.specs.ImageReport.{KeepsKinds};
ghost use Rattle.yr_preserves.specs.Shape.{IsCompiled};
ghost use Rattle.yr_compiler.specs.Built.{IsBuilt};
ghost use Rattle.yr_preserves.specs.RuleIds.{HaveIds};
ghost use Rattle.yr_compiler.specs.Finds.{FindsSame};
ghost use Rattle.yr_draft.specs.Added.{empty_image};

use crate::code::put_codes;
use crate::{put_externals, put_rules};
use std::alloc::Global;
use yr_base::NoMemory;
use yr_draft::ImageDraft;
use yr_image::Tables;
use yr_machine::laws::some_programs_are_known;
use yr_rules::CheckedRules;
use yr_splits::put_strings;

/// Puts rules into an image without a row: strings with the automaton of their atoms, externals, the code of each condition, and then the
/// rules that name all these.
fn fill(alloc: Global, draft: &mut ImageDraft, rules: &CheckedRules) -> Result<(), NoMemory>
    requires { draft.old ≡ empty_image }
    ensures built { OnOk result (IsBuilt draft.new (rules_of rules.now)) }
    ensures wellformed { OnOk result (IsWellformed (rules_of rules.now)) }
{
    put_strings(alloc, draft, rules)?;
    put_externals(draft, rules.externals())?;
    let codes = put_codes(alloc, draft, rules.externals(), rules.rules())?;
    put_rules(draft, rules.rules(), &codes)?;
    Ok(())
}

/// The tables of rules: their encoding is an image to which the rules may be compiled.
pub fn compile(alloc: Global, rules: &CheckedRules) -> Result<Tables, NoMemory>
    requires { HaveIds (rules_of rules.now) }
    ensures compiled { IfOk result (λ tables. Fits (shown tables) → (modules : List ℕ → ModuleValues) → KeepsKinds modules
        → IsCompiled modules (encoded (shown tables)) (rules_of rules.now)) }
    // It finds the same matches and truths.
    ensures finds { IfOk result (λ tables. Fits (shown tables) → (modules : List ℕ → ModuleValues) → KeepsKinds modules
        → FindsSame modules (encoded (shown tables)) (rules_of rules.now)) }
    ensures short { IfOk result (λ tables. encoded_length (shown tables) < 2 ^ 32) }
{
    some_programs_are_known();
    let mut draft = ImageDraft::new(alloc);
    fill(alloc, &mut draft, rules)?;
    Ok(draft.finish())
}
