//! Hex literals.

ghost use Rattle.std.specs.Prelude.{◌≡◌, Some, None, MatchOption};
ghost use Rattle.yr_lexer.specs.Gaps.{Text};
ghost use Rattle.yr_lexer.specs.Forms.{HexEnds};
ghost use Rattle.yr_lexer.specs.Reading as reading;

use crate::gap::past_comment;

fn opens_comment(behind: &[u8]) -> bool
    ensures { result ≡ reading.opens_comment behind.now }
{
    match behind {
        [b, ..] => *b == b'/' || *b == b'*',
        [] => false,
    }
}

fn past_hex_piece(b: u8, behind: &[u8]) -> Option<&[u8]>
    ensures { MatchOption result (reading.past_hex_piece b behind.now ≡ None)
        (λ x. reading.past_hex_piece b behind.now ≡ Some x.now) }
{
    if b == b'/' && opens_comment(behind) {
        past_comment(behind)
    } else {
        Some(behind)
    }
}

/// What follows a byte or a comment, and whether the byte was the closing one.
#[tactic(auto, unfolding(crate::specs::Reading::hex_step))]
fn hex_step(text: &[u8]) -> Option<(bool, &[u8])>
    ensures { MatchOption result (reading.hex_step text.now ≡ None)
        (λ x. reading.hex_step text.now ≡ Some (x.0, x.1.now)) }
{
    match text {
        [] => None,
        [b'}', behind @ ..] => Some((true, behind)),
        [b, behind @ ..] => match past_hex_piece(*b, behind) {
            Some(next) => Some((false, next)),
            None => None,
        },
    }
}

/// What follows the next `}` that stands outside comments.
pub fn past_hex(text: &[u8]) -> Option<&[u8]>
    ensures { MatchOption result ((rest : Text) → ¬ HexEnds text.now rest)
        (λ x. HexEnds text.now x.now) }
{
    let mut rest = text;
    while let Some((is_end, next)) = hex_step(rest) {
        if is_end {
            return Some(next);
        }
        rest = next;
    }
    None
}
