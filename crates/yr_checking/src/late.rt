//! The checks on a rule's patterns, its condition and how many there are.

ghost use Rattle.std.specs.Prelude.{◌≡◌, ◌≤◌, ◌+◌, ◌||◌, nat_lt};
ghost use Rattle.std.specs.Option.{option_map};
ghost use Rattle.yr_checking.specs.AtHand.{given_at, placed_at};
ghost use Rattle.yr_checking.specs.Findings.{finding_of, named_of};
ghost use Rattle.yr_checks.specs.Given as spec;
ghost use Rattle.yr_checking.specs.Late.{IsExamined};
ghost use Rattle.yr_checking.specs.Stages.{late_finding};

use crate::at_hand::AtHand;
use crate::{Finding, Named, found, some_deep, some_long, where_true};
use yr_checks::{Check, Code};
use yr_conditions::Uses;
use yr_rules::Kind;

/// A rule with all that its later checks look at.
#[derive(Drop)]
pub struct Examined<'c, 'a> {
    pub at: &'c AtHand<'c, 'a>,
    pub uses: &'c Uses<'a>,
    /// The first findings on the strings' patterns.
    pub bad_hex: Option<Finding<'a>>,
    pub bad_regex: Option<Finding<'a>>,
    pub large: Option<Finding<'a>>,
    /// The same of the condition's expressions.
    pub bad_use: Option<Finding<'a>>,
    pub large_use: Option<Finding<'a>>,
    /// The first token of the condition that means no string, and the first word that means nothing.
    pub unknown_string: Option<Named<'a>>,
    pub unknown_name: Option<Named<'a>>,
    /// The first string that the condition does not use.
    pub unused: Option<Named<'a>>,
    /// The kind of the condition's value.
    pub kind: Option<Kind>,
    /// How many rules and strings stand before.
    pub rules_before: usize,
    pub strings_before: usize,
}

fn naming(code: Code, named: Option<Named<'_>>) -> Option<Finding<'_>>
    ensures { option_map finding_of result ≡ spec.naming code (option_map named_of named.entry) }
{
    match named {
        Some(named) => Some(found(code, named)),
        None => None,
    }
}

/// Whether there are too many rules or strings up to here.
fn is_many(rules_before: usize, strings_before: usize, strings: usize) -> bool
    requires rules { rules_before ≤ 65535 }
    requires strings { strings_before ≤ 65535 }
    ensures { result ≡ (nat_lt 65535 (rules_before + 1) || nat_lt 65535 (strings_before + strings)) }
{
    rules_before >= 65535 || strings > 65535 - strings_before
}

/// What the check finds.
pub fn late_check<'a>(examined: &Examined<'_, 'a>, check: Check) -> Option<Finding<'a>>
    requires { IsExamined examined.now }
    ensures { option_map finding_of result ≡ late_finding (given_at examined.now.at.now) (placed_at examined.now.at.now) check }
{
    let uses = examined.uses.items();
    match check {
        Check::HexStrings => examined.bad_hex,
        Check::Expressions => examined.bad_regex.or(examined.bad_use),
        Check::Sizes => examined.large.or(examined.large_use),
        Check::StringsUsed => naming(Code::UnknownString, examined.unknown_string),
        Check::NamesUsed => naming(Code::UnknownName, examined.unknown_name),
        Check::Kinds => where_true(examined.kind.is_none(), Code::WrongType),
        Check::UnusedStrings => naming(Code::UnusedString, examined.unused),
        Check::LoopDepth => where_true(some_deep(uses), Code::LoopDepth),
        Check::ListLength => where_true(some_long(uses), Code::ListTooLong),
        Check::Counts => {
            let strings = examined.at.rule.strings.len();
            let many = is_many(examined.rules_before, examined.strings_before, strings);
            where_true(many, Code::TooMany)
        }
        Check::Imports
        | Check::RuleName
        | Check::RuleWildcards
        | Check::Tags
        | Check::StringNames
        | Check::Texts
        | Check::Modifiers
        | Check::Weight => None,
    }
}
