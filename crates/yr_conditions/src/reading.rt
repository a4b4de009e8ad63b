//! What hex strings and expressions are read as.

ghost use Rattle.std.specs.Prelude.{◌≡◌, ◌<◌, ◌^◌, length, IfOk};
ghost use Rattle.yr_conditions.specs.Answers.{hex_answer_of, regex_answer_of};
ghost use Rattle.yr_conditions.specs.Fixed.{the_readers};

use std::alloc::Global;
use yr_base::NoMemory;
use yr_hex::{HexFault, read_hex};
use yr_pattern::Pattern;
use yr_regex::{RegexFault, read_regex};

/// What a text is as a hex string.
#[derive(Drop)]
pub enum HexAnswer {
    Pattern(Pattern),
    Syntax,
    /// The jump at this place breaks a rule.
    Jump(u32),
}

/// What a text is as an expression.
#[derive(Drop)]
pub enum RegexAnswer {
    Expression { pattern: Pattern, greedy: bool },
    Syntax,
    /// The quantifier or range at this place is not allowed.
    Range(u32),
    Mixed,
}

pub fn hex_answer(alloc: Global, text: &[u8]) -> Result<HexAnswer, NoMemory>
    requires { length text.now < 2 ^ 32 }
    ensures { IfOk result (λ a. hex_answer_of a ≡ the_readers.hex text.now) }
{
    match read_hex(alloc, text) {
        Ok(pattern) => Ok(HexAnswer::Pattern(pattern)),
        Err(HexFault::HexSyntax) => Ok(HexAnswer::Syntax),
        Err(HexFault::HexJump(place)) => Ok(HexAnswer::Jump(place)),
        Err(HexFault::NoMemory) => Err(NoMemory),
    }
}

pub fn regex_answer(
    alloc: Global,
    text: &[u8],
    nocase: bool,
    dot_all: bool,
) -> Result<RegexAnswer, NoMemory>
    requires { length text.now < 2 ^ 32 }
    ensures { IfOk result (λ a. regex_answer_of a ≡ the_readers.regex text.now nocase dot_all) }
{
    match read_regex(alloc, text, nocase, dot_all) {
        Ok(regex) => Ok(RegexAnswer::Expression {
            pattern: regex.pattern,
            greedy: regex.greedy,
        }),
        Err(RegexFault::RegexSyntax) => Ok(RegexAnswer::Syntax),
        Err(RegexFault::RegexRange(place)) => Ok(RegexAnswer::Range(place)),
        Err(RegexFault::MixedGreed) => Ok(RegexAnswer::Mixed),
        Err(RegexFault::NoMemory) => Err(NoMemory),
    }
}
