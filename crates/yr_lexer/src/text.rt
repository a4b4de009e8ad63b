//! Texts and expressions between their quotes.

ghost use Rattle.std.specs.Prelude.{◌≡◌, ◌≤◌, ◌*◌, ◌+◌, ℕ, List, length, Some, None, MatchOption, IfOk, true, false};
ghost use Rattle.yr_lexer.specs.Texts.{Unescapes};
ghost use Rattle.yr_lexer.specs.Reading as reading;

use crate::number::digit_of;
use std::alloc::Global;
use yr_base::NoMemory;

/// What follows the units and the closing quote.
#[tactic(auto, unfolding(crate::specs::Reading::past_units))]
pub fn past_units(quote: u8, text: &[u8]) -> Option<&[u8]>
    ensures { MatchOption result (reading.past_units quote false text.now ≡ None)
        (λ x. reading.past_units quote false text.now ≡ Some x.now) }
{
    let mut rest = text;
    let mut is_escaped = false;
    while let [b, more @ ..] = rest {
        if *b == b'\n' {
            return None;
        }
        if !is_escaped && *b == quote {
            return Some(more);
        }
        is_escaped = !is_escaped && *b == b'\\';
        rest = more;
    }
    None
}

fn code_in(text: &[u8]) -> Option<(u8, &[u8])>
    ensures { MatchOption result (reading.code_in text.now ≡ None)
        (λ x. reading.code_in text.now ≡ Some (x.0, x.1.now)) }
{
    match text {
        [h, l, rest @ ..] => {
            let high = digit_of(*h);
            let low = digit_of(*l);
            if high < 16 && low < 16 {
                Some((16 * high + low, rest))
            } else {
                None
            }
        }
        _ => None,
    }
}

fn escape_of(text: &[u8]) -> Option<(u8, &[u8])>
    ensures { MatchOption result (reading.escape_of text.now ≡ None)
        (λ x. reading.escape_of text.now ≡ Some (x.0, x.1.now)) }
{
    match text {
        [b'"', rest @ ..] => Some((b'"', rest)),
        [b'\\', rest @ ..] => Some((b'\\', rest)),
        [b't', rest @ ..] => Some((b'\t', rest)),
        [b'n', rest @ ..] => Some((b'\n', rest)),
        [b'r', rest @ ..] => Some((b'\r', rest)),
        [b'x', rest @ ..] => code_in(rest),
        _ => None,
    }
}

/// The byte that a unit of a text stands for, and what follows.
#[tactic(auto, unfolding(crate::specs::Reading::unit_of))]
fn unit_of(text: &[u8]) -> Option<(u8, &[u8])>
    ensures { MatchOption result (reading.unit_of text.now ≡ None)
        (λ x. reading.unit_of text.now ≡ Some (x.0, x.1.now)) }
{
    match text {
        [] => None,
        [b'\\', rest @ ..] => escape_of(rest),
        [b, rest @ ..] => {
            if *b == b'\n' || *b == b'"' {
                None
            } else {
                Some((*b, rest))
            }
        }
    }
}

/// Whether each `\` of a closed text begins an escape.
pub fn has_good_escapes(inside: &[u8]) -> bool
    ensures good { result ≡ true → (bytes : List ℕ) × Unescapes inside.now bytes }
    ensures bad { result ≡ false → (bytes : List ℕ) → ¬ Unescapes inside.now bytes }
{
    let mut rest = inside;
    while let Some((_, more)) = unit_of(rest) {
        rest = more;
    }
    rest.is_empty()
}

/// The bytes that the inside of a text stands for.
pub fn unescape(alloc: Global, text: &[u8]) -> Result<Vec<u8>, NoMemory>
    requires { (bytes : List ℕ) × Unescapes text.now bytes }
    ensures value { IfOk result (λ v. Unescapes text.now v.items) }
{
    let mut bytes = Vec::new(alloc);
    let mut rest = text;
    while let Some((b, more)) = unit_of(rest) {
        bytes.push(b)?;
        rest = more;
    }
    Ok(bytes)
}
