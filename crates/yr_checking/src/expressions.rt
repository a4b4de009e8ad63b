//! The expressions of conditions.

ghost use Rattle.std.specs.Prelude.{◌≡◌, IfOk, map};
ghost use Rattle.std.specs.Option.{option_map};
ghost use Rattle.yr_name_tables.specs.Names.{first};
ghost use Rattle.yr_conditions.specs.Answers.{regex_answer_of};
ghost use Rattle.yr_conditions.specs.Fixed.{the_readers};
ghost use Rattle.yr_conditions.specs.Readers.{expression_of};
ghost use Rattle.yr_syntax.specs.Condition.{regex_of};
ghost use Rattle.yr_syntax.specs.Forms.{Each, IsShortText};
ghost use Rattle.yr_conditions.specs.UseViews.{use_of};
ghost use Rattle.yr_checking.specs.Findings.{finding_of, named_of, HasShortText};
ghost use Rattle.yr_checks.specs.Patterns as spec;

use crate::finding::{Finding, Named, found};
use crate::read_string::regex_fault;
use std::alloc::Global;
use yr_base::NoMemory;
use yr_checks::Code;
use yr_conditions::{RegexAnswer, Use, regex_answer};
use yr_pattern::size;
use yr_syntax::RegexText;

/// What is wrong with an expression, and whether its pattern is too large.
#[derive(Clone, Copy)]
pub struct ExpressionFindings<'a> {
    pub bad: Option<Finding<'a>>,
    pub large: Option<Finding<'a>>,
}

fn large_expression<'a>(answer: &RegexAnswer) -> Option<Finding<'a>>
    ensures { option_map finding_of result ≡ spec.large_expression spec.matches_word (regex_answer_of answer.now) }
{
    match answer {
        RegexAnswer::Expression { pattern, .. } => {
            if size(pattern) > 65535 {
                Some(found(Code::PatternTooLarge, Named::Word(b"matches")))
            } else {
                None
            }
        }
        _ => None,
    }
}

fn no_findings<'a>() -> ExpressionFindings<'a>
    ensures bad { option_map finding_of result.bad ≡ None }
    ensures large { option_map finding_of result.large ≡ None }
{
    ExpressionFindings {
        bad: None,
        large: None,
    }
}

fn expression_findings<'a>(
    alloc: Global,
    used: &Use<'a>,
) -> Result<ExpressionFindings<'a>, NoMemory>
    requires { HasShortText (use_of used.now) }
    ensures bad { IfOk result (λ f. option_map finding_of f.bad ≡ spec.bad_use the_readers (use_of used.now)) }
    ensures large { IfOk result (λ f. option_map finding_of f.large ≡ spec.large_use the_readers (use_of used.now)) }
{
    match used {
        Use::Expression(regex) => {
            let answer = regex_answer(alloc, &regex.text, regex.nocase, regex.dot_all)?;
            Ok(ExpressionFindings {
                bad: regex_fault(Named::Word(b"matches"), &answer),
                large: large_expression(&answer),
            })
        }
        _ => Ok(no_findings()),
    }
}

/// The first findings of the expressions that a condition uses.
pub fn first_expression_findings<'a>(
    alloc: Global,
    uses: &[Use<'a>],
) -> Result<ExpressionFindings<'a>, NoMemory>
    requires { Each HasShortText (map use_of uses.now) }
    ensures bad { IfOk result (λ f. option_map finding_of f.bad ≡ first (spec.bad_use the_readers) (map use_of uses.now)) }
    ensures large { IfOk result (λ f. option_map finding_of f.large ≡ first (spec.large_use the_readers) (map use_of uses.now)) }
{
    let mut bad = None;
    let mut large = None;
    for i in (0..uses.len()).rev() {
        let one = expression_findings(alloc, &uses[i])?;
        bad = one.bad.or(bad);
        large = one.large.or(large);
    }
    Ok(ExpressionFindings { bad, large })
}
