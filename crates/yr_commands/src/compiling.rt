//! `compile`: rules become an image in a file.

ghost use Rattle.std.specs.Prelude.{◌≡◌, ◌≤◌, ℕ, List, Option, Some, None, All, IfOk, length, map};
ghost use Rattle.yr_base.specs.Store.{Files};
ghost use Rattle.yr_preserves.specs.RuleIds.{HaveIds};
ghost use Rattle.yr_outcome.specs.Fits.{seen};
ghost use Rattle.yr_outcome.specs.Front.{Reading, IsReading};
ghost use Rattle.yr_outcome.specs.Front as front;
ghost use Rattle.yr_outcome.specs.Outcome as outcome;
ghost use Rattle.yr_outcome.specs.Steps.{FitsAnswer, HasCause};
ghost use Rattle.yr_rules.specs.Rules.{rules_of};
ghost use Rattle.yr_rules.specs.Wellformed.{IsShortWord};
ghost use Rattle.yr_checks.specs.Resolving.{AreExternals};
ghost use Rattle.yr_words.specs.Commands.{Compile};
ghost use Rattle.yr_words.specs.Shown.{source_shown, given_shown};
ghost use Rattle.yr_commands.specs.Program.{all_setting};

use crate::rules_image::image_of;
use std::alloc::Global;
use yr_base::Store;
use yr_checks::CheckedRules;
use yr_front::checked_rules;
use yr_outcome::{Answer, write_output};
use yr_words::{Given, Source};

fn write_image<'a, F: Store>(
    alloc: Global,
    rules: &CheckedRules,
    output: &'a str,
    store: &mut F,
) -> Answer<'a>
    requires { HaveIds (rules_of rules.now) }
    ensures later { F.faults store.old ≤ F.faults store.new }
    ensures cause { (before after : ℕ) → HasCause (Some output.now) result (F.faults store.old) (F.faults store.new) before after }
    ensures fits { (files : Files) → F.files store.old ≡ Some files → (out : Option (List ℕ))
        → FitsAnswer all_setting (λ found. outcome.written files output.now found.image (outcome.CompiledTo (rules_of rules.now))) result
        (seen (F.files store.old) (F.trace store.old) out) (seen (F.files store.new) (F.trace store.new) out) }
{
    match image_of(alloc, rules) {
        Ok(bytes) => write_output(alloc, output, &bytes, store),
        Err(_) => Answer::NoMemory,
    }
}

/// Compiles rule files.
pub fn compile<'a, F: Store>(
    alloc: Global,
    sources: &[Source<'_>],
    output: &'a str,
    givens: &[Given<'_>],
    store: &mut F,
) -> Answer<'a>
    requires few { length sources.now ≤ 16 }
    requires spaces { All (λ s. IsShortWord s.space) (map source_shown sources.now) }
    requires externals { AreExternals (map front.external_of (map given_shown givens.now)) }
    ensures later { F.faults store.old ≤ F.faults store.new }
    ensures cause { (before after : ℕ) → HasCause (Some output.now) result (F.faults store.old) (F.faults store.new) before after }
    ensures fits { (reading : Reading) → IsReading reading → (files : Files) → F.files store.old ≡ Some files → (out : Option (List ℕ))
        → FitsAnswer all_setting (λ found. outcome.run all_setting reading found files (Compile (map source_shown sources.now) output.now (map given_shown givens.now))) result
        (seen (F.files store.old) (F.trace store.old) out) (seen (F.files store.new) (F.trace store.new) out) }
{
    match checked_rules(alloc, sources, givens, store) {
        Ok(rules) => write_image(alloc, &rules, output, store),
        Err(answer) => answer,
    }
}
