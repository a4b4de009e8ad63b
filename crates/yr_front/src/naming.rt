//! The names that texts of refusals have.

ghost use Rattle.std.specs.Prelude.{◌≡◌, map};
ghost use Rattle.yr_lexer.specs.Sources.{file_of};
ghost use Rattle.yr_lexer.specs.declared.fault.LexFault.TheVariants as lex;
ghost use Rattle.yr_outcome.specs.Front.{file_name, files_of, rule_name};
ghost use Rattle.yr_outcome.specs.Texts.{lex_name, lex_line, code_name};
ghost use Rattle.yr_checks.specs.Sources.{unit_of};
ghost use Rattle.yr_front.specs.Units.{unit_shown};

use crate::unit::SourceUnit;
use yr_checks::{Code, Unit};
use yr_lexer::{LexFault, SourceFile};
use yr_syntax::{Decl, Rule};

/// The name of a fault of the tokens.
pub fn lex_name(fault: LexFault) -> &'static str
    ensures { result.now ≡ lex_name fault }
{
    match fault {
        LexFault::Unclosed(_) => "Unclosed",
        LexFault::BadEscape(_) => "BadEscape",
        LexFault::Float(_) => "Float",
        LexFault::BadByte(_) => "BadByte",
        LexFault::TooLargeNumber(_) => "TooLargeNumber",
        LexFault::LongName(_) => "LongName",
        LexFault::NoMemory => "",
    }
}

/// The line of a fault of the tokens.
pub fn lex_line(fault: LexFault) -> u32
    ensures { result ≡ lex_line fault }
{
    match fault {
        LexFault::Unclosed(line)
        | LexFault::BadEscape(line)
        | LexFault::Float(line)
        | LexFault::BadByte(line)
        | LexFault::TooLargeNumber(line)
        | LexFault::LongName(line) => line,
        LexFault::NoMemory => 0,
    }
}

/// The name of what a check finds.
pub fn code_name(code: Code) -> &'static str
    ensures { result.now ≡ code_name code }
{
    match code {
        Code::UnknownModule => "UnknownModule",
        Code::DuplicateRule => "DuplicateRule",
        Code::WildcardRule => "WildcardRule",
        Code::DuplicateTag => "DuplicateTag",
        Code::DuplicateString => "DuplicateString",
        Code::EmptyString => "EmptyString",
        Code::BadModifiers => "BadModifiers",
        Code::HexSyntax => "HexSyntax",
        Code::HexJump => "HexJump",
        Code::RegexSyntax => "RegexSyntax",
        Code::RegexRange => "RegexRange",
        Code::MixedGreed => "MixedGreed",
        Code::PatternTooLarge => "PatternTooLarge",
        Code::UnknownString => "UnknownString",
        Code::UnknownName => "UnknownName",
        Code::WrongType => "WrongType",
        Code::UnusedString => "UnusedString",
        Code::LoopDepth => "LoopDepth",
        Code::ListTooLong => "ListTooLong",
        Code::TooMany => "TooMany",
        Code::TooHeavy => "TooHeavy",
    }
}

fn name_among(files: &[SourceFile], file: u32) -> &str
    ensures { result.now ≡ file_name (map file_of files.now) file }
{
    match files.get(file as usize) {
        Some(found) => found.name.as_str(),
        None => "",
    }
}

/// The name of a file of a gathered rule file.
pub fn file_name<'u>(unit: &'u SourceUnit<'_>, file: u32) -> &'u str
    ensures { result.now ≡ file_name unit.now.tokens.files file }
{
    name_among(unit.tokens.files(), file)
}

/// The name of a file of the unit of a number, none past the last.
pub fn file_name_in<'u>(units: &'u [SourceUnit<'_>], unit: u32, file: u32) -> &'u str
    ensures { result.now ≡ file_name (files_of (map unit_shown units.now) unit) file }
{
    match units.get(unit as usize) {
        Some(found) => file_name(found, file),
        None => "",
    }
}
