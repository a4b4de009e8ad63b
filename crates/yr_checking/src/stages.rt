//! The checks on a rule, one after another.

ghost use Rattle.std.specs.Prelude.{◌≡◌, IfOk};
ghost use Rattle.std.specs.Option.{option_map};
ghost use Rattle.yr_name_tables.specs.Names.{first};
ghost use Rattle.yr_checking.specs.AtHand.{IsAtHand, given_at, placed_at};
ghost use Rattle.yr_checking.specs.Late.{IsExamined};
ghost use Rattle.yr_checking.specs.Stages.{early_fault, late_fault, fault_at};

use crate::Finding;
use crate::at_hand::AtHand;
use crate::early::early_check;
use crate::late::{Examined, late_check};
use std::alloc::Global;
use yr_base::NoMemory;
use yr_checks::Check;

/// All checks in their order.
pub const CHECKS: [Check; 18] = [
    Check::Imports,
    Check::RuleName,
    Check::RuleWildcards,
    Check::Tags,
    Check::StringNames,
    Check::Texts,
    Check::Modifiers,
    Check::HexStrings,
    Check::Expressions,
    Check::Sizes,
    Check::StringsUsed,
    Check::NamesUsed,
    Check::Kinds,
    Check::UnusedStrings,
    Check::LoopDepth,
    Check::ListLength,
    Check::Counts,
    Check::Weight,
];

/// A check that fails, and what it finds.
#[derive(Clone, Copy)]
pub struct Fault<'a> {
    pub check: Check,
    pub finding: Finding<'a>,
}

/// The first of the checks that fails without a look at the condition.
pub fn first_early<'a>(
    alloc: Global,
    at: &AtHand<'_, 'a>,
    checks: &[Check],
) -> Result<Option<Fault<'a>>, NoMemory>
    requires { IsAtHand at.now }
    ensures { IfOk result (λ o. option_map (fault_at (placed_at at.now)) o ≡ first (early_fault (given_at at.now) (placed_at at.now)) checks.now) }
{
    for check in checks {
        if let Some(finding) = early_check(alloc, at, *check)? {
            return Ok(Some(Fault {
                check: *check,
                finding,
            }));
        }
    }
    Ok(None)
}

/// The first of the other checks that fails, but for the weight.
pub fn first_late<'a>(examined: &Examined<'_, 'a>, checks: &[Check]) -> Option<Fault<'a>>
    requires { IsExamined examined.now }
    ensures { option_map (fault_at (placed_at examined.now.at.now)) result ≡ first (late_fault (given_at examined.now.at.now) (placed_at examined.now.at.now)) checks.now }
{
    for check in checks {
        if let Some(finding) = late_check(examined, *check) {
            return Some(Fault {
                check: *check,
                finding,
            });
        }
    }
    None
}
