//! The checks on a rule that look at no condition.

ghost use Rattle.std.specs.Prelude.{◌≡◌, IfOk};
ghost use Rattle.std.specs.Option.{option_map};
ghost use Rattle.yr_checking.specs.AtHand.{IsAtHand, given_at, placed_at};
ghost use Rattle.yr_checking.specs.Findings.{finding_of};
ghost use Rattle.yr_checking.specs.Stages.{early_finding};

use crate::at_hand::AtHand;
use crate::{
    Finding, first_bad_modifiers, first_empty, has_front, string_twice, tag_twice, where_true,
};
use std::alloc::Global;
use yr_base::NoMemory;
use yr_checks::{Check, Code};

/// What the check finds.
pub fn early_check<'a>(
    alloc: Global,
    at: &AtHand<'_, 'a>,
    check: Check,
) -> Result<Option<Finding<'a>>, NoMemory>
    requires { IsAtHand at.now }
    ensures { IfOk result (λ o. option_map finding_of o ≡ early_finding (given_at at.now) (placed_at at.now) check) }
{
    match check {
        Check::RuleName => {
            let name = at.rule.name.as_slice();
            let taken = at.space.rules.has(name) || at.external_names.has(name);
            Ok(where_true(taken, Code::DuplicateRule))
        }
        Check::RuleWildcards => {
            let claimed = has_front(&at.space.fronts, &at.rule.name);
            Ok(where_true(claimed, Code::WildcardRule))
        }
        Check::Tags => tag_twice(alloc, &at.rule.tags),
        Check::StringNames => string_twice(alloc, &at.rule.strings),
        Check::Texts => Ok(first_empty(&at.rule.strings)),
        Check::Modifiers => Ok(first_bad_modifiers(&at.rule.strings)),
        Check::Imports
        | Check::HexStrings
        | Check::Expressions
        | Check::Sizes
        | Check::StringsUsed
        | Check::NamesUsed
        | Check::Kinds
        | Check::UnusedStrings
        | Check::LoopDepth
        | Check::ListLength
        | Check::Counts
        | Check::Weight => Ok(None),
    }
}
