//! Refusals of rules and imports.

ghost use Rattle.std.specs.Prelude.{◌≡◌, ◌<◌, ◌^◌, [], IfOk};
ghost use Rattle.yr_checking.specs.AtHand.{placed_at};
ghost use Rattle.yr_checking.specs.Findings.{finding_of};
ghost use Rattle.yr_checks.specs.Given.{finding};
ghost use Rattle.yr_checks.specs.Refusals as spec;
ghost use Rattle.yr_checks.specs.Sources.{number_of};

use crate::at_hand::AtHand;
use crate::{Finding, named_bytes};
use std::alloc::Global;
use yr_base::NoMemory;
use yr_checks::{Check, Code, Refusal};

/// The number of a check, from 1.
fn order(check: Check) -> u8
    ensures { result ≡ spec.order check }
{
    match check {
        Check::Imports => 1,
        Check::RuleName => 2,
        Check::RuleWildcards => 3,
        Check::Tags => 4,
        Check::StringNames => 5,
        Check::Texts => 6,
        Check::Modifiers => 7,
        Check::HexStrings => 8,
        Check::Expressions => 9,
        Check::Sizes => 10,
        Check::StringsUsed => 11,
        Check::NamesUsed => 12,
        Check::Kinds => 13,
        Check::UnusedStrings => 14,
        Check::LoopDepth => 15,
        Check::ListLength => 16,
        Check::Counts => 17,
        Check::Weight => 18,
    }
}

/// The refusal of the rule at hand, before which so many rules stand.
pub fn refuse_rule(
    alloc: Global,
    at: &AtHand<'_, '_>,
    rules_before: usize,
    check: Check,
    finding: Finding<'_>,
) -> Result<Refusal, NoMemory>
    requires number { rules_before ≡ number_of (placed_at at.now) }
    requires few { rules_before < 2 ^ 32 }
    ensures { IfOk result (λ r. spec.refusal_of r ≡ spec.at_rule (placed_at at.now) check (finding_of finding.entry)) }
{
    let named = named_bytes(alloc, finding.named)?;
    Ok(Refusal {
        check: order(check),
        code: finding.code,
        unit: at.unit,
        file: at.rule.file,
        line: at.rule.line,
        rule: Some(rules_before as u32),
        named,
        place: finding.place,
    })
}

/// The refusal of an import.
pub fn refuse_import(
    alloc: Global,
    unit: u32,
    name: &[u8],
    file: u32,
    line: u32,
) -> Result<Refusal, NoMemory>
    ensures { (space : _) → IfOk result (λ r. spec.refusal_of r ≡ spec.at_import (record { unit = unit; space = space; name = name.now; file = file; line = line })) }
{
    let named = Vec::from_slice(alloc, name)?;
    Ok(Refusal {
        check: 1,
        code: Code::UnknownModule,
        unit,
        file,
        line,
        rule: None,
        named,
        place: None,
    })
}

/// The refusal of a rule set that is too heavy past the last rule.
pub fn refuse_end(alloc: Global) -> Refusal
    ensures { spec.refusal_of result ≡ spec.at_end (finding Code.TooHeavy []) }
{
    Refusal {
        check: 18,
        code: Code::TooHeavy,
        unit: 0,
        file: 0,
        line: 0,
        rule: None,
        named: Vec::new(alloc),
        place: None,
    }
}
