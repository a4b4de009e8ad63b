//! Jumps of a hex string.

ghost use Rattle.std.specs.Prelude.{◌≡◌, ◌<◌, ◌^◌, Some, None, Bool};
ghost use Rattle.yr_hex.specs.Reading as spec;
ghost use Rattle.yr_hex.specs.Reading.{Yields};

use crate::cursor::Cursor;
use crate::fault::HexFault;

/// What a jump says: how many bytes at least, and how many at most where that is bounded.
#[derive(Clone, Copy, Debug, PartialEq, Eq)]
pub struct Numbers {
    pub least: u32,
    pub most: Option<u32>,
}

/// The digits in front, which go on with a number, and what follows them.
#[tactic(auto, unfolding(crate::specs::Reading::past_digits))]
fn past_digits(first: u32, text: &[u8]) -> (u32, &[u8])
    ensures { (result.0, result.1.now) ≡ spec.past_digits spec.cut first text.now }
{
    let mut rest = text;
    let mut number = first;
    while let [b, more @ ..] = rest {
        if !b.is_ascii_digit() {
            return (number, rest);
        }
        number = number
            .saturating_mul(10)
            .saturating_add(u32::from(*b - b'0'));
        rest = more;
    }
    (number, rest)
}

#[tactic(auto, unfolding(crate::specs::Reading::read_number))]
fn number(text: &mut Cursor<'_>) -> Result<u32, HexFault>
    ensures { Yields (λ x. x) (spec.read_number spec.cut text.old) result text.new }
{
    match text.rest() {
        [b, more @ ..] if b.is_ascii_digit() => {
            let (number, rest) = past_digits(u32::from(*b - b'0'), more);
            text.set(rest);
            Ok(number)
        }
        _ => Err(HexFault::HexSyntax),
    }
}

#[tactic(auto, unfolding(crate::specs::Reading::read_close))]
fn close(text: &mut Cursor<'_>, least: u32, most: Option<u32>) -> Result<Numbers, HexFault>
    ensures { Yields (λ x. x) (spec.read_close least most text.old) result text.new }
{
    text.skip_gap();
    text.expect(b']')?;
    Ok(Numbers { least, most })
}

/// After the `-` that follows a first number.
#[tactic(auto, unfolding(crate::specs::Reading::read_last))]
fn last(text: &mut Cursor<'_>, least: u32) -> Result<Numbers, HexFault>
    ensures { Yields (λ x. x) (spec.read_last spec.cut least text.old) result text.new }
{
    text.skip_gap();
    if text.eat(b']') {
        return Ok(Numbers { least, most: None });
    }
    let most = number(text)?;
    close(text, least, Some(most))
}

/// After a first number.
#[tactic(auto, unfolding(crate::specs::Reading::read_next))]
fn next(text: &mut Cursor<'_>, least: u32) -> Result<Numbers, HexFault>
    ensures { Yields (λ x. x) (spec.read_next spec.cut least text.old) result text.new }
{
    text.skip_gap();
    if text.eat(b'-') {
        last(text, least)
    } else {
        close(text, least, Some(least))
    }
}

/// At a first number.
#[tactic(auto, unfolding(crate::specs::Reading::read_first))]
fn first(text: &mut Cursor<'_>) -> Result<Numbers, HexFault>
    ensures { Yields (λ x. x) (spec.read_first spec.cut text.old) result text.new }
{
    let least = number(text)?;
    next(text, least)
}

/// The numbers of a jump, from behind its `[` through its `]`.
#[tactic(auto, unfolding(crate::specs::Reading::read_numbers))]
pub fn read_numbers(text: &mut Cursor<'_>) -> Result<Numbers, HexFault>
    ensures { Yields (λ x. x) (spec.read_numbers spec.cut text.old) result text.new }
{
    text.skip_gap();
    if text.eat(b'-') {
        close(text, 0, None)
    } else {
        first(text)
    }
}

impl Numbers {
    /// Whether a jump may have these numbers, inside brackets or outside.
    pub fn is_allowed(&self, inside: bool) -> bool
        ensures { result ≡ spec.allows inside self.now.least self.now.most }
    {
        match self.most {
            None => !inside && self.least <= 65_535,
            Some(most) => self.least <= most && most <= if inside { 200 } else { 65_535 },
        }
    }
}
