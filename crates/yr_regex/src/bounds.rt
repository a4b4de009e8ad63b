//! Quantifiers.

ghost use Rattle.std.specs.Prelude.{◌≡◌, false};
ghost use Rattle.yr_regex.specs.Reading as spec;
ghost use Rattle.yr_regex.specs.Reading.{Finds};

use crate::cursor::Cursor;

/// How many at least, how many at most where that is bounded, and whether the quantifier is `{n}`.
#[derive(Clone, Copy, Debug, PartialEq, Eq)]
pub struct Bounds {
    pub least: u32,
    pub most: Option<u32>,
    pub exact: bool,
}

/// The digits in front, which go on with a number, and what follows them.
#[tactic(auto, unfolding(crate::specs::Reading::past_digits))]
fn past_digits(first: u32, text: &[u8]) -> (u32, &[u8])
    ensures { (result.0, result.1.now) ≡ spec.past_digits spec.cut first text.now }
{
    let mut rest = text;
    let mut number = first;
    while let [b, more @ ..] = rest {
        if !b.is_ascii_digit() {
            return (number, rest);
        }
        number = number
            .saturating_mul(10)
            .saturating_add(u32::from(*b - b'0'));
        rest = more;
    }
    (number, rest)
}

#[tactic(auto, unfolding(crate::specs::Reading::read_number))]
fn number(text: &mut Cursor<'_>) -> Option<u32>
    ensures { Finds (λ x. x) (spec.read_number spec.cut text.old) result text.new }
{
    match text.rest() {
        [b, more @ ..] if b.is_ascii_digit() => {
            let (number, rest) = past_digits(u32::from(*b - b'0'), more);
            text.set(rest);
            Some(number)
        }
        _ => None,
    }
}

#[tactic(auto, unfolding(crate::specs::Reading::read_close))]
fn close(text: &mut Cursor<'_>, bounds: Bounds) -> Option<Bounds>
    ensures { Finds (λ x. x) (spec.read_close bounds text.old) result text.new }
{
    text.expect(b'}')?;
    Some(bounds)
}

/// At a last number.
#[tactic(auto, unfolding(crate::specs::Reading::read_most))]
fn most(text: &mut Cursor<'_>, least: u32) -> Option<Bounds>
    ensures { Finds (λ x. x) (spec.read_most spec.cut least text.old) result text.new }
{
    let most = number(text)?;
    let bounds = Bounds {
        least,
        most: Some(most),
        exact: false,
    };
    close(text, bounds)
}

/// After the `,` that follows a first number.
#[tactic(auto, unfolding(crate::specs::Reading::read_last))]
fn last(text: &mut Cursor<'_>, least: u32) -> Option<Bounds>
    ensures { Finds (λ x. x) (spec.read_last spec.cut least text.old) result text.new }
{
    if text.eat(b'}') {
        return Some(Bounds {
            least,
            most: None,
            exact: false,
        });
    }
    most(text, least)
}

/// After a first number.
#[tactic(auto, unfolding(crate::specs::Reading::read_next))]
fn next(text: &mut Cursor<'_>, least: u32) -> Option<Bounds>
    ensures { Finds (λ x. x) (spec.read_next spec.cut least text.old) result text.new }
{
    if text.eat(b',') {
        return last(text, least);
    }
    let bounds = Bounds {
        least,
        most: Some(least),
        exact: true,
    };
    close(text, bounds)
}

/// After a `{`.
#[tactic(auto, unfolding(crate::specs::Reading::read_braced))]
fn braced(text: &mut Cursor<'_>) -> Option<Bounds>
    ensures { Finds (λ x. x) (spec.read_braced spec.cut text.old) result text.new }
{
    if text.eat(b',') {
        return most(text, 0);
    }
    let least = number(text)?;
    next(text, least)
}

fn sign(least: u32, most: Option<u32>) -> Bounds
    ensures { result ≡ spec.bounds least most false }
{
    Bounds {
        least,
        most,
        exact: false,
    }
}

/// A quantifier, from its sign on.
#[tactic(auto, unfolding(crate::specs::Reading::read_quantifier))]
pub fn quantifier(text: &mut Cursor<'_>) -> Option<Bounds>
    ensures { Finds (λ x. x) (spec.read_quantifier spec.cut text.old) result text.new }
{
    let [b, rest @ ..] = text.rest() else {
        return None;
    };
    text.set(rest);
    match *b {
        b'*' => Some(sign(0, None)),
        b'+' => Some(sign(1, None)),
        b'?' => Some(sign(0, Some(1))),
        b'{' => braced(text),
        _ => None,
    }
}

impl Bounds {
    /// Whether a quantifier may have these bounds.
    pub fn are_allowed(&self) -> bool
        ensures { result ≡ spec.allows self.now.least self.now.most }
    {
        match self.most {
            None => self.least <= 32_767,
            Some(most) => self.least <= most && most <= 32_767,
        }
    }
}
