//! The refusals of gathering and of the grammar, with what is said of them.

ghost use Rattle.std.specs.Prelude.{◌≡◌, ◌++◌, ℕ, List, Ok, Err, codes, string_bytes, map};
ghost use Rattle.std.specs.List.{flat_map};
ghost use Rattle.yr_outcome.specs.declared.status.Status.TheVariants as status;
ghost use Rattle.yr_outcome.specs.Front.{grammar_refusal};
ghost use Rattle.yr_outcome.specs.Steps.{IsRefusalOf};
ghost use Rattle.yr_outcome.specs.Texts.{at_line, code_name, finding_text, place_text, spaced_text};
ghost use Rattle.yr_front.specs.Units.{IsUngatheredAnswer, IsGrammarAnswer, IsRulesAnswer};

use crate::naming::{file_name, lex_line, lex_name};
use crate::unit::SourceUnit;
use itoa::Buffer;
use std::alloc::Global;
use yr_lexer::GatherFault;
use yr_outcome::{Answer, Status, join, refuse};
use yr_parser::ParseFault;

/// The refusal of rules at a line of a file.
pub fn refuse_at<'a>(alloc: Global, file: &[u8], line: u32, what: &[&[u8]]) -> Answer<'a>
    ensures { (text : List ℕ) → text ≡ flat_map (λ p. p.now) what.now → IsRefusalOf status.Rules (at_line file.now line text) result }
{
    let Ok(told) = join(alloc, what) else {
        return Answer::NoMemory;
    };
    let mut buffer = Buffer::new();
    let line = buffer.format(line).as_bytes();
    refuse(
        alloc,
        Status::Rules,
        &[file, b":", line, b": ", told.as_slice(), b"\n"],
    )
}

/// The answer where files could not be gathered.
pub fn refuse_gathering<'a>(alloc: Global, fault: GatherFault) -> Answer<'a>
    ensures { IsUngatheredAnswer fault result }
{
    match fault {
        GatherFault::Lex { file, fault } => refuse_at(
            alloc,
            file.as_bytes(),
            lex_line(fault),
            &[lex_name(fault).as_bytes()],
        ),
        GatherFault::Read { name } => Answer::UnreadFile(name),
        GatherFault::Path { file, line } => refuse_at(alloc, file.as_bytes(), line, &[b"Path"]),
        GatherFault::Cycle { file, line, name } => {
            refuse_at(alloc, file.as_bytes(), line, &[b"Cycle ", name.as_bytes()])
        }
        GatherFault::Depth { file, line, name } => {
            refuse_at(alloc, file.as_bytes(), line, &[b"Depth ", name.as_bytes()])
        }
        GatherFault::TextTooLong { name } => refuse(
            alloc,
            Status::Rules,
            &[name.as_bytes(), b": TextTooLong", b"\n"],
        ),
        GatherFault::NoMemory => Answer::NoMemory,
    }
}

/// The answer where the tokens of a rule file are no declarations.
pub fn refuse_parse<'a>(alloc: Global, unit: &SourceUnit<'_>, fault: ParseFault) -> Answer<'a>
    ensures grammar { IsGrammarAnswer unit.now.tokens.files fault result }
    ensures answer { IsRulesAnswer result }
{
    match fault {
        ParseFault::Syntax { file, line, .. } => refuse_at(
            alloc,
            file_name(unit, file).as_bytes(),
            line,
            &[b"Syntax"],
        ),
        ParseFault::TooDeep { file, line, .. } => refuse_at(
            alloc,
            file_name(unit, file).as_bytes(),
            line,
            &[b"TooDeep"],
        ),
        ParseFault::NoMemory => Answer::NoMemory,
    }
}
