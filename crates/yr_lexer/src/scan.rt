//! The token at a place.

ghost use Rattle.std.specs.Prelude.{◌≡◌, ◌≢◌, ◌∷◌, [], Bool, List, ℕ, true, false, MatchResult, length, ◌≤◌, ◌^◌, ◌<◌, ◌&&◌, ◌==◌};
ghost use Rattle.yr_base.specs.Bytes.{is_word_start};
ghost use Rattle.yr_lexer.specs.Gaps.{Text, Piece};
ghost use Rattle.yr_lexer.specs.Texts.{digit_of};
ghost use Rattle.yr_lexer.specs.Forms.{name_length};
ghost use Rattle.yr_lexer.specs.Faults.{IsFirstFault};
ghost use Rattle.yr_lexer.specs.Tokens.{IsToken};
ghost use Rattle.yr_lexer.specs.Candidates.{IsCandidate, IsNoWord, IsOther};
ghost use Rattle.yr_lexer.specs.Reading as reading;

use crate::fault::FaultRow;
use crate::hex::past_hex;
use crate::number::{TOO_LARGE, is_float, number_in};
use crate::reserved::is_reserved;
use crate::sign::{flags_of, past_byte, past_sign};
use crate::text::{has_good_escapes, past_units};
use crate::token::TokenKind;
use yr_base::is_word_byte;

/// The most bytes of a name.
const NAME_LIMIT: usize = 128;

#[tactic(auto, unfolding(crate::specs::Reading::past_word))]
fn past_word(text: &[u8]) -> &[u8]
    ensures { result.now ≡ reading.past_word text.now }
{
    let mut rest = text;
    while let [b, more @ ..] = rest {
        if !is_word_byte(*b) {
            return rest;
        }
        rest = more;
    }
    rest
}

fn word(text: &[u8]) -> (TokenKind, &[u8])
    requires { (b : ℕ) × (t : Text) × (text.now ≡ b ∷ t) × (is_word_start b ≡ true) }
    ensures { (after_equals : Bool) → IsCandidate after_equals text.now result.0 result.1.now }
{
    let rest = past_word(text);
    if is_reserved(&text[..text.len() - rest.len()]) {
        (TokenKind::Reserved, rest)
    } else {
        (TokenKind::Word, rest)
    }
}

/// A string's name or a wildcard, behind its `$`.
fn string_name(behind: &[u8]) -> (TokenKind, &[u8])
    ensures { (after_equals : Bool) → IsCandidate after_equals (36 ∷ behind.now) result.0 result.1.now }
{
    let (is_wild, rest) = past_byte(b'*', past_word(behind));
    if is_wild {
        (TokenKind::StringWild, rest)
    } else {
        (TokenKind::StringName, rest)
    }
}

/// The name of a length, or the sign `!=`, behind its `!`.
fn length_name(behind: &[u8]) -> (TokenKind, &[u8])
    ensures { (after_equals : Bool) → IsCandidate after_equals (33 ∷ behind.now) result.0 result.1.now }
{
    let (is_sign, rest) = past_byte(b'=', behind);
    if is_sign {
        (TokenKind::Sign, rest)
    } else {
        (TokenKind::LengthName, past_word(behind))
    }
}

/// The value that fits, of a number that is there.
fn number(text: &[u8]) -> Result<(TokenKind, &[u8]), FaultRow>
    requires { (b : ℕ) × (t : Text) × (text.now ≡ b ∷ t) × (digit_of b < 10) }
    ensures { (after_equals : Bool) → MatchResult result
        (λ x. IsCandidate after_equals text.now x.0 x.1.now)
        (λ f. IsFirstFault f after_equals text.now) }
{
    if is_float(text) {
        return Err(FaultRow::Float);
    }
    let rest = past_word(text);
    match number_in(&text[..text.len() - rest.len()]) {
        None => Err(FaultRow::BadByte),
        Some(n) => {
            if n < TOO_LARGE {
                Ok((TokenKind::Number(n as i64), rest))
            } else {
                Err(FaultRow::TooLargeNumber)
            }
        }
    }
}

/// A text, behind its quote.
fn quoted(behind: &[u8]) -> Result<(TokenKind, &[u8]), FaultRow>
    ensures { (after_equals : Bool) → MatchResult result
        (λ x. IsCandidate after_equals (34 ∷ behind.now) x.0 x.1.now)
        (λ f. IsFirstFault f after_equals (34 ∷ behind.now)) }
{
    match past_units(b'"', behind) {
        None => Err(FaultRow::Unclosed),
        Some(rest) => {
            if has_good_escapes(&behind[..behind.len() - rest.len() - 1]) {
                Ok((TokenKind::Text, rest))
            } else {
                Err(FaultRow::BadEscape)
            }
        }
    }
}

/// An expression, behind its `/`.
fn regex(behind: &[u8]) -> Result<(TokenKind, &[u8]), FaultRow>
    requires { (rest : Text) → ¬ Piece (47 ∷ behind.now) rest }
    ensures { (after_equals : Bool) → MatchResult result
        (λ x. IsCandidate after_equals (47 ∷ behind.now) x.0 x.1.now)
        (λ f. IsFirstFault f after_equals (47 ∷ behind.now)) }
{
    let (is_comment, _) = past_byte(b'*', behind);
    if is_comment {
        return Err(FaultRow::Unclosed);
    }
    match past_units(b'/', behind) {
        None => Err(FaultRow::Unclosed),
        Some(after) => {
            let flags = flags_of(after);
            Ok((
                TokenKind::Regex {
                    nocase: flags.nocase,
                    dot_all: flags.dot_all,
                },
                flags.rest,
            ))
        }
    }
}

/// A hex literal, behind its brace.
fn hex(behind: &[u8]) -> Result<(TokenKind, &[u8]), FaultRow>
    ensures { MatchResult result (λ x. IsCandidate true (123 ∷ behind.now) x.0 x.1.now)
        (λ f. IsFirstFault f true (123 ∷ behind.now)) }
{
    match past_hex(behind) {
        None => Err(FaultRow::Unclosed),
        Some(rest) => Ok((TokenKind::Hex, rest)),
    }
}

fn begins_hex(after_equals: bool, b: u8) -> bool
    ensures { result ≡ (after_equals && b == 123) }
{
    after_equals && b == b'{'
}

/// What stands behind a byte that is no letter, digit, `_`, quote, `/`, `$`, `#`, `@` or `!`: a hex literal or a sign.
fn hex_or_sign(after_equals: bool, b: u8, behind: &[u8]) -> Result<(TokenKind, &[u8]), FaultRow>
    requires { IsOther b }
    ensures { MatchResult result (λ x. IsCandidate after_equals (b ∷ behind.now) x.0 x.1.now)
        (λ f. IsFirstFault f after_equals (b ∷ behind.now)) }
{
    if begins_hex(after_equals, b) {
        return hex(behind);
    }
    match past_sign(b, behind) {
        None => Err(FaultRow::BadByte),
        Some(rest) => Ok((TokenKind::Sign, rest)),
    }
}

/// What stands behind a byte that is no letter, digit, `_`, quote or `/`.
fn name_or_sign(after_equals: bool, b: u8, behind: &[u8]) -> Result<(TokenKind, &[u8]), FaultRow>
    requires { IsNoWord b }
    ensures { MatchResult result (λ x. IsCandidate after_equals (b ∷ behind.now) x.0 x.1.now)
        (λ f. IsFirstFault f after_equals (b ∷ behind.now)) }
{
    match b {
        b'$' => Ok(string_name(behind)),
        b'#' => Ok((TokenKind::CountName, past_word(behind))),
        b'@' => Ok((TokenKind::PlaceName, past_word(behind))),
        b'!' => Ok(length_name(behind)),
        _ => hex_or_sign(after_equals, b, behind),
    }
}

/// The longest token that begins with this byte, or the first fault but that of a long name.
fn candidate<'a>(
    after_equals: bool,
    b: u8,
    behind: &'a [u8],
    text: &'a [u8],
) -> Result<(TokenKind, &'a [u8]), FaultRow>
    requires whole { text.now ≡ b ∷ behind.now }
    requires no_piece { (rest : Text) → ¬ Piece text.now rest }
    ensures { MatchResult result (λ x. IsCandidate after_equals text.now x.0 x.1.now)
        (λ f. IsFirstFault f after_equals text.now) }
{
    if b.is_ascii_alphabetic() || b == b'_' {
        return Ok(word(text));
    }
    if b.is_ascii_digit() {
        return number(text);
    }
    match b {
        b'"' => quoted(behind),
        b'/' => regex(behind),
        _ => name_or_sign(after_equals, b, behind),
    }
}

/// The bytes of a token's name, the sign before it and the `*` behind it left out.
fn name_length(kind: TokenKind, length: usize) -> usize
    ensures { result ≡ name_length kind length }
{
    match kind {
        TokenKind::Word => length,
        TokenKind::StringName
        | TokenKind::CountName
        | TokenKind::PlaceName
        | TokenKind::LengthName => length.saturating_sub(1),
        TokenKind::StringWild => length.saturating_sub(2),
        _ => 0,
    }
}

/// The token that begins here and what follows it, or the first fault.
pub fn scan(after_equals: bool, text: &[u8]) -> Result<(TokenKind, &[u8]), FaultRow>
    requires some { text.now ≢ [] }
    requires no_piece { (rest : Text) → ¬ Piece text.now rest }
    ensures { MatchResult result (λ x. IsToken after_equals text.now x.0 x.1.now)
        (λ f. IsFirstFault f after_equals text.now) }
{
    match text {
        [] => Err(FaultRow::BadByte),
        [b, behind @ ..] => {
            let (kind, rest) = candidate(after_equals, *b, behind, text)?;
            if name_length(kind, text.len() - rest.len()) > NAME_LIMIT {
                return Err(FaultRow::LongName);
            }
            Ok((kind, rest))
        }
    }
}
