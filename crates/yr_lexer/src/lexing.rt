//! The tokens of a text.

ghost use Rattle.std.specs.Prelude.{◌≡◌, ◌+◌, ◌-◌, ◌<◌, ◌≤◌, ◌^◌, length, List, Result, MatchResult, IfOk, All};
ghost use Rattle.yr_lexer.specs.declared.fault.LexFault.{LexFault};
ghost use Rattle.yr_lexer.specs.declared.token.Token.{Token};
ghost use Rattle.yr_lexer.specs.Gaps.{Text, feeds_in};
ghost use Rattle.yr_lexer.specs.Sources.{LiesIn};
ghost use Rattle.yr_lexer.specs.Tokens.{Lexes, ExplainsLex, is_equals, fault_on};

use crate::fault::{FaultRow, LexFault};
use crate::gap::{feeds_in, past_gap};
use crate::scan::scan;
use crate::token::{Token, TokenKind};
use std::alloc::Global;

/// The line behind some bytes.
fn line_after(line: u32, passed: &[u8]) -> u32
    requires { line + length passed.now < 2 ^ 32 }
    ensures { result ≡ line + feeds_in passed.now }
{
    line + feeds_in(passed) as u32
}

fn is_equals(spelling: &[u8]) -> bool
    ensures { result ≡ is_equals spelling.now }
{
    match spelling {
        [b] => *b == b'=',
        _ => false,
    }
}

/// The token between two rests of a text.
fn token_at(text: &[u8], kind: TokenKind, line: u32, rest: &[u8], after: &[u8]) -> Token
    requires small { length text.now ≤ 2 ^ 24 }
    requires rest { length rest.now ≤ length text.now }
    requires after { length after.now ≤ length text.now }
    ensures { result ≡ record { kind = kind; line = line; from = length text.now - length rest.now; to = length text.now - length after.now } }
{
    Token {
        kind,
        line,
        from: (text.len() - rest.len()) as u32,
        to: (text.len() - after.len()) as u32,
    }
}

/// A row of the table of faults with its line.
fn fault_on(row: FaultRow, line: u32) -> LexFault
    ensures { result ≡ fault_on row line }
{
    match row {
        FaultRow::Unclosed => LexFault::Unclosed(line),
        FaultRow::BadEscape => LexFault::BadEscape(line),
        FaultRow::Float => LexFault::Float(line),
        FaultRow::BadByte => LexFault::BadByte(line),
        FaultRow::TooLargeNumber => LexFault::TooLargeNumber(line),
        FaultRow::LongName => LexFault::LongName(line),
    }
}

/// The tokens of a text, in order. A token lends its bytes from the text: it has only its places.
pub fn lex(alloc: Global, text: &[u8]) -> Result<Vec<Token>, LexFault>
    requires { length text.now ≤ 2 ^ 24 }
    ensures answer { MatchResult result
        (λ tokens. Lexes text.now (Ok tokens.items)) (ExplainsLex text.now) }
    ensures few { IfOk result (λ tokens. length tokens.items ≤ length text.now) }
    ensures lies { IfOk result (λ tokens. All (LiesIn text.now) tokens.items) }
{
    let mut tokens = Vec::new(alloc);
    let mut rest = past_gap(text);
    let mut line = line_after(1, &text[..text.len() - rest.len()]);
    let mut after_equals = false;
    'tokens: while !rest.is_empty() {
        let (kind, after) = match scan(after_equals, rest) {
            Ok(found) => found,
            Err(row) => return Err(fault_on(row, line)),
        };
        tokens.push(token_at(text, kind, line, rest, after))?;
        let next = past_gap(after);
        line = line_after(line, &rest[..rest.len() - next.len()]);
        after_equals = is_equals(&rest[..rest.len() - after.len()]);
        rest = next;
    }
    Ok(tokens)
}
