//! The checks on parsed rule files.

ghost use Rattle.std.specs.Prelude.{◌≡◌, IfOk, IfErr, Ok, List, [], None, MatchResult, map};
ghost use Rattle.yr_base.specs.Gives.{Gives};
ghost use Rattle.yr_preserves.specs.RuleIds.{HaveIds};
ghost use Rattle.yr_modules.specs.Joined.{all_modules};
ghost use Rattle.yr_outcome.specs.declared.status.Status.TheVariants as status;
ghost use Rattle.yr_outcome.specs.Front.{Reading, IsReading, check_refusal, with_checks, with_units, given_for};
ghost use Rattle.yr_outcome.specs.Front as front;
ghost use Rattle.yr_outcome.specs.Steps.{IsRefusalOf};
ghost use Rattle.yr_outcome.specs.Texts.{at_line, finding_text, place_text, spaced_text};
ghost use Rattle.yr_rules.specs.Rules.{rules_of};
ghost use Rattle.yr_checks.specs.Refusals.{refusal_of, resolved};
ghost use Rattle.yr_checks.specs.Resolving.{AreExternals, AreUnits, refusal_in};
ghost use Rattle.yr_checks.specs.Sources.{unit_of};
ghost use Rattle.yr_values.specs.Names.{NamedModule};
ghost use Rattle.yr_words.specs.Shown.{given_shown};
ghost use Rattle.yr_front.specs.Units.{unit_shown, RefusesAs, IsRulesAnswer};

use crate::externals::externals_of;
use crate::naming::{code_name, file_name_in};
use crate::numbering::rule_name;
use crate::refusing::refuse_at;
use crate::unit::SourceUnit;
use itoa::Buffer;
use std::alloc::{AllocError, Global};
use yr_checking::resolve;
use yr_checks::{CheckedRules, Code, Refusal, ResolveFault, Unit};
use yr_modules::module_names;
use yr_outcome::{Answer, Status, join, refuse};
use yr_words::Given;

// A blank and a text, where there is one.
fn spaced_text(alloc: Global, text: &[u8]) -> Result<Vec<u8>, AllocError>
    ensures { IfOk result (λ t. t.items ≡ spaced_text text.now) }
{
    if text.is_empty() {
        Ok(Vec::new(alloc))
    } else {
        join(alloc, &[b" ", text])
    }
}

// A blank and a place, where there is one.
fn place_text(alloc: Global, place: Option<u32>) -> Result<Vec<u8>, AllocError>
    ensures { IfOk result (λ t. t.items ≡ place_text place) }
{
    match place {
        Some(place) => {
            let mut buffer = Buffer::new();
            join(alloc, &[b" ", buffer.format(place).as_bytes()])
        }
        None => Ok(Vec::new(alloc)),
    }
}

// The refusal of a rule.
fn refuse_rule<'a>(alloc: Global, file: &str, rule: &[u8], refusal: &Refusal) -> Answer<'a>
    ensures { IsRefusalOf status.Rules
        (at_line file.now refusal.now.line (finding_text refusal.now.code rule.now refusal.now.named.items refusal.now.place)) result }
{
    let Ok(code) = join(alloc, &[code_name(refusal.code).as_bytes()]) else {
        return Answer::NoMemory;
    };
    let Ok(named) = spaced_text(alloc, &refusal.named) else {
        return Answer::NoMemory;
    };
    let Ok(place) = place_text(alloc, refusal.place) else {
        return Answer::NoMemory;
    };
    refuse_at(
        alloc,
        file.as_bytes(),
        refusal.line,
        &[
            code.as_slice(),
            b" ",
            rule,
            named.as_slice(),
            place.as_slice(),
        ],
    )
}

// The refusal of an import, or of the weight of all rules.
fn refuse_without_rule<'a>(alloc: Global, file: &str, refusal: &Refusal) -> Answer<'a>
    ensures { IsRefusalOf status.Rules (front.check_text file.now [] (refusal_of refusal.now) None) result }
{
    match refusal.code {
        Code::UnknownModule => refuse_at(
            alloc,
            file.as_bytes(),
            refusal.line,
            &[b"UnknownModule ", refusal.named.as_slice()],
        ),
        code => refuse(alloc, Status::Rules, &[code_name(code).as_bytes(), b"\n"]),
    }
}

/// The answer where a check fails.
pub fn refuse_check<'a>(
    alloc: Global,
    gathered: &[SourceUnit<'_>],
    units: &[Unit],
    refusal: &Refusal,
) -> Answer<'a>
    ensures { IsRefusalOf status.Rules (check_refusal (map unit_shown gathered.now) (map unit_of units.now) (refusal_of refusal.now)).said result }
{
    let file = file_name_in(gathered, refusal.unit, refusal.file);
    match refusal.rule {
        Some(number) => refuse_rule(alloc, file, rule_name(units, number), refusal),
        None => refuse_without_rule(alloc, file, refusal),
    }
}

// The checks, over the modules that there are and the externals that words give.
fn resolve_units(
    alloc: Global,
    units: &[Unit],
    givens: &[Given<'_>],
) -> Result<CheckedRules, ResolveFault>
    requires units { AreUnits (map unit_of units.now) }
    requires externals { AreExternals (map front.external_of (map given_shown givens.now)) }
    ensures rules { (reading : Reading) → IsReading reading → (modules : List NamedModule) → modules ≡ all_modules
        → Gives rules_of refusal_in result (resolved (given_for reading modules (map given_shown givens.now)) (map unit_of units.now)) }
    ensures ids { IfOk result (λ rules. HaveIds (rules_of rules)) }
{
    yr_modules::laws::rows_are_listed();
    let Ok(names) = module_names(alloc) else {
        return Err(ResolveFault::NoMemory);
    };
    let Ok(externals) = externals_of(alloc, givens) else {
        return Err(ResolveFault::NoMemory);
    };
    resolve(alloc, units, &names, &externals)
}

/// The checked rules of parsed rule files, or the refusal of the first check that fails.
pub fn check_units<'a>(
    alloc: Global,
    gathered: &[SourceUnit<'_>],
    units: &[Unit],
    givens: &[Given<'_>],
) -> Result<CheckedRules, Answer<'a>>
    requires units { AreUnits (map unit_of units.now) }
    requires externals { AreExternals (map front.external_of (map given_shown givens.now)) }
    ensures rules { (reading : Reading) → IsReading reading → (modules : List NamedModule) → modules ≡ all_modules → MatchResult result
        (λ rules. with_checks reading modules (map unit_shown gathered.now) (map unit_of units.now)
        (resolved (given_for reading modules (map given_shown givens.now)) (map unit_of units.now)) ≡ Ok (rules_of rules))
        (RefusesAs (with_checks reading modules (map unit_shown gathered.now) (map unit_of units.now)
        (resolved (given_for reading modules (map given_shown givens.now)) (map unit_of units.now)))) }
    ensures answer { IfErr result IsRulesAnswer }
    ensures ids { IfOk result (λ rules. HaveIds (rules_of rules)) }
{
    match resolve_units(alloc, units, givens) {
        Ok(rules) => Ok(rules),
        Err(ResolveFault::Refused(refusal)) => {
            Err(refuse_check(alloc, gathered, units, &refusal))
        }
        Err(ResolveFault::NoMemory) => Err(Answer::NoMemory),
    }
}
