//! Bytes that are written with a `\`, and sets.

ghost use Rattle.std.specs.Prelude.{◌≡◌, ℕ, ◌<◌, if◌then◌else◌, MatchOption, None, Some};
ghost use Rattle.yr_pattern.specs.Set.{bytes_of, either, only};
ghost use Rattle.yr_regex.specs.Escapes as escapes;
ghost use Rattle.yr_regex.specs.Reading as spec;
ghost use Rattle.yr_regex.specs.Reading.{Finds};

use crate::cursor::Cursor;
use yr_pattern::ByteSet;

/// One of the signs `\ ^ $ . | ( ) [ * + ?`, which stand for themselves only after a `\`.
pub fn is_sign(b: u8) -> bool
    ensures { result ≡ escapes.is_sign b }
{
    b == b'\\'
        || b == b'^'
        || b == b'$'
        || b == b'.'
        || b == b'|'
        || b == b'('
        || b == b')'
        || b == b'['
        || b == b'*'
        || b == b'+'
        || b == b'?'
}

fn hex_digit(b: u8) -> Option<u8>
    ensures value { result ≡ escapes.hex_digit b }
    ensures small { (d : ℕ) → result ≡ Some d → d < 16 }
{
    match b {
        b'0'..=b'9' => Some(b - b'0'),
        b'A'..=b'F' => Some(b - b'A' + 10),
        b'a'..=b'f' => Some(b - b'a' + 10),
        _ => None,
    }
}

fn is_kept(c: u8) -> bool
    ensures { result ≡ escapes.is_kept c }
{
    c.is_ascii_digit()
        || c == b'x'
        || c == b'w'
        || c == b'W'
        || c == b's'
        || c == b'S'
        || c == b'd'
        || c == b'D'
        || c == b'b'
        || c == b'B'
}

fn escaped(c: u8) -> Option<u8>
    ensures { result ≡ escapes.escaped c }
{
    match c {
        b't' => Some(b'\t'),
        b'n' => Some(b'\n'),
        b'r' => Some(b'\r'),
        b'f' => Some(12),
        b'a' => Some(7),
        _ if is_kept(c) => None,
        _ => Some(c),
    }
}

#[tactic(auto, unfolding(crate::specs::Reading::read_digit))]
fn read_digit(text: &mut Cursor<'_>) -> Option<u8>
    ensures found { Finds (λ x. x) (spec.read_digit text.old) result text.new }
    ensures small { (d : ℕ) → result ≡ Some d → d < 16 }
{
    let [b, rest @ ..] = text.rest() else {
        return None;
    };
    let digit = hex_digit(*b)?;
    text.set(rest);
    Some(digit)
}

#[tactic(auto, unfolding(crate::specs::Reading::read_hex))]
fn read_hex(text: &mut Cursor<'_>) -> Option<u8>
    ensures { Finds (λ x. x) (spec.read_hex text.old) result text.new }
{
    let high = read_digit(text)?;
    let low = read_digit(text)?;
    Some(16 * high + low)
}

/// The byte that a `\` and what follows it stand for.
#[tactic(auto, unfolding(crate::specs::Reading::read_escaped))]
pub fn read_escaped(text: &mut Cursor<'_>) -> Option<u8>
    ensures { Finds (λ x. x) (spec.read_escaped text.old) result text.new }
{
    let [c, rest @ ..] = text.rest() else {
        return None;
    };
    text.set(rest);
    if *c == b'x' {
        return read_hex(text);
    }
    escaped(*c)
}

/// The set, and the byte if it lies between the two.
fn with_between(set: &ByteSet, from: u8, to: u8, b: u8) -> ByteSet
    ensures { bytes_of result ≡ (if escapes.between from to b then either (bytes_of set.now) (only b) else bytes_of set.now) }
{
    if from <= b && b <= to {
        set.with(b)
    } else {
        *set
    }
}

/// The bytes from one to another.
pub fn between(from: u8, to: u8) -> ByteSet
    ensures { bytes_of result ≡ escapes.between from to }
{
    let mut set = ByteSet::none();
    for b in 0..256u16 {
        set = with_between(&set, from, to, b as u8);
    }
    set
}

fn word() -> ByteSet
    ensures { bytes_of result ≡ escapes.word }
{
    let letters = between(b'A', b'Z').union(&between(b'a', b'z'));
    letters.with(b'_').union(&between(b'0', b'9'))
}

fn space() -> ByteSet
    ensures { bytes_of result ≡ escapes.space }
{
    between(9, 13).with(b' ')
}

fn decimal() -> ByteSet
    ensures { bytes_of result ≡ escapes.decimal }
{
    between(b'0', b'9')
}

fn kind(c: u8) -> Option<ByteSet>
    ensures { MatchOption result (escapes.kind c ≡ None) (λ s. escapes.kind c ≡ Some (bytes_of s)) }
{
    match c {
        b'w' => Some(word()),
        b'W' => Some(word().complement()),
        b's' => Some(space()),
        b'S' => Some(space().complement()),
        b'd' => Some(decimal()),
        b'D' => Some(decimal().complement()),
        _ => None,
    }
}

/// The set that a `\` and the next byte stand for.
#[tactic(auto, unfolding(crate::specs::Reading::read_kind))]
pub fn read_kind(text: &mut Cursor<'_>) -> Option<ByteSet>
    ensures { Finds bytes_of (spec.read_kind text.old) result text.new }
{
    let [c, rest @ ..] = text.rest() else {
        return None;
    };
    text.set(rest);
    kind(*c)
}

/// A set, from its `\` on.
#[tactic(auto, unfolding(crate::specs::Reading::read_set))]
pub fn read_set(text: &mut Cursor<'_>) -> Option<ByteSet>
    ensures { Finds bytes_of (spec.read_set text.old) result text.new }
{
    if text.eat(b'\\') {
        return read_kind(text);
    }
    None
}
