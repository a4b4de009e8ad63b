//! From rule files to checked rules.

ghost use Rattle.std.specs.Prelude.{◌≡◌, ◌≤◌, ℕ, List, Option, Some, Ok, All, IfErr, IfOk, MatchResult, length, map};
ghost use Rattle.yr_base.specs.Store.{Files};
ghost use Rattle.yr_preserves.specs.RuleIds.{HaveIds};
ghost use Rattle.yr_modules.specs.Joined.{all_modules};
ghost use Rattle.yr_outcome.specs.Answers.{Setting};
ghost use Rattle.yr_outcome.specs.Fits.{seen};
ghost use Rattle.yr_outcome.specs.Front.{Reading, IsReading, names_read, with_units};
ghost use Rattle.yr_outcome.specs.Front as front;
ghost use Rattle.yr_outcome.specs.Outcome.{Found, Ending, with_rules};
ghost use Rattle.yr_outcome.specs.Steps.{FitsAnswer, HasCause, HasRead};
ghost use Rattle.yr_rules.specs.Rules.{PlainRules, rules_of};
ghost use Rattle.yr_rules.specs.Wellformed.{IsShortWord};
ghost use Rattle.yr_checks.specs.Resolving.{AreExternals};
ghost use Rattle.yr_values.specs.Names.{NamedModule};
ghost use Rattle.yr_words.specs.Shown.{source_shown, given_shown};
ghost use Rattle.yr_front.specs.Units.{unit_shown, RefusesAs, RefusedBy, IsRulesAnswer};

use crate::checking::check_units;
use crate::gathering::gather_all;
use crate::parsing::parse_all;
use crate::refusing::refuse_gathering;
use crate::unit::SourceUnit;
use std::alloc::Global;
use yr_base::Store;
use yr_checks::CheckedRules;
use yr_outcome::Answer;
use yr_words::{Given, Source};

// The grammar and the checks on gathered rule files.
fn check_gathered<'a>(
    alloc: Global,
    gathered: &[SourceUnit<'_>],
    givens: &[Given<'_>],
) -> Result<CheckedRules, Answer<'a>>
    requires few { length gathered.now ≤ 16 }
    requires spaces { All IsShortWord (map (λ u. u.space.now) gathered.now) }
    requires externals { AreExternals (map front.external_of (map given_shown givens.now)) }
    ensures rules { (reading : Reading) → IsReading reading → (modules : List NamedModule) → modules ≡ all_modules → MatchResult result
        (λ rules. with_units reading modules (map given_shown givens.now) (Ok (map unit_shown gathered.now)) ≡ Ok (rules_of rules))
        (RefusesAs (with_units reading modules (map given_shown givens.now) (Ok (map unit_shown gathered.now)))) }
    ensures answer { IfErr result IsRulesAnswer }
    ensures ids { IfOk result (λ rules. HaveIds (rules_of rules)) }
{
    let units = parse_all(alloc, gathered)?;
    check_units(alloc, gathered, &units, givens)
}

/// The checked rules of these files, with these values of externals, or the answer of every command that is left without rules.
pub fn checked_rules<'a, F: Store>(
    alloc: Global,
    sources: &[Source<'_>],
    givens: &[Given<'_>],
    store: &mut F,
) -> Result<CheckedRules, Answer<'a>>
    requires few { length sources.now ≤ 16 }
    requires spaces { All (λ s. IsShortWord s.space) (map source_shown sources.now) }
    requires externals { AreExternals (map front.external_of (map given_shown givens.now)) }
    ensures files { F.files store.new ≡ F.files store.old }
    ensures later { F.faults store.old ≤ F.faults store.new }
    ensures cause { (output : Option (List ℕ)) (before after : ℕ)
        → IfErr result (λ a. HasCause output a (F.faults store.old) (F.faults store.new) before after) }
    ensures ids { IfOk result (λ rules. HaveIds (rules_of rules)) }
    ensures refused { (reading : Reading) → IsReading reading → (modules : List NamedModule) → modules ≡ all_modules
        → (files : Files) → F.files store.old ≡ Some files
        → IfErr result (RefusedBy (front.rules_of reading modules files (map source_shown sources.now) (map given_shown givens.now))) }
    ensures fits { (setting : Setting) → setting.modules ≡ all_modules → (reading : Reading) → IsReading reading
        → (files : Files) → F.files store.old ≡ Some files → (out : Option (List ℕ)) → MatchResult result
        (λ rules. (front.rules_of reading setting.modules files (map source_shown sources.now) (map given_shown givens.now) ≡ Ok (rules_of rules))
        × HasRead (names_read reading setting.modules files (map source_shown sources.now))
        (seen (F.files store.old) (F.trace store.old) out) (seen (F.files store.new) (F.trace store.new) out))
        (λ a. (next : Found → PlainRules → Ending)
        → FitsAnswer setting (λ found. with_rules setting reading found files (map source_shown sources.now) (map given_shown givens.now) (next found)) a
        (seen (F.files store.old) (F.trace store.old) out) (seen (F.files store.new) (F.trace store.new) out)) }
{
    match gather_all(alloc, sources, store) {
        Ok(gathered) => check_gathered(alloc, &gathered, givens),
        Err(fault) => Err(refuse_gathering(alloc, fault)),
    }
}
