//! Bytes of a hex string.

ghost use Rattle.std.specs.Prelude.{◌≡◌, ℕ, ◌+◌, ◌*◌, ◌%◌, ◌<◌, ◌==◌};
ghost use Rattle.std.specs.Int.{bit_at};
ghost use Rattle.yr_pattern.specs.Set.{bytes_of, HasBits};
ghost use Rattle.yr_hex.specs.Grammar.{half};
ghost use Rattle.yr_hex.specs.Meaning as meaning;
ghost use Rattle.yr_hex.specs.Reading as spec;
ghost use Rattle.yr_hex.specs.Reading.{Yields};

use crate::cursor::Cursor;
use crate::fault::HexFault;
use yr_pattern::ByteSet;

/// Half of a byte: a digit, or any.
fn half(b: u8) -> Option<Option<u8>>
    ensures { result ≡ half b }
{
    match b {
        b'0'..=b'9' => Some(Some(b - b'0')),
        b'A'..=b'F' => Some(Some(b - b'A' + 10)),
        b'a'..=b'f' => Some(Some(b - b'a' + 10)),
        b'?' => Some(None),
        _ => None,
    }
}

#[tactic(auto, unfolding(crate::specs::Reading::read_half))]
fn read_half(text: &mut Cursor<'_>) -> Result<Option<u8>, HexFault>
    ensures { Yields (λ x. x) (spec.read_half text.old) result text.new }
{
    let [b, rest @ ..] = text.rest() else {
        return Err(HexFault::HexSyntax);
    };
    let Some(digit) = half(*b) else {
        return Err(HexFault::HexSyntax);
    };
    text.set(rest);
    Ok(digit)
}

fn agrees(digit: Option<u8>, half: u8) -> bool
    ensures { result ≡ meaning.agrees digit half }
{
    match digit {
        None => true,
        Some(digit) => half == digit,
    }
}

/// Eight bits, which say of the bytes from `8 * k` on whether their low digits agree.
fn low_bits(low: Option<u8>, k: usize) -> u8
    ensures { (i : ℕ) → i < 8 → (bit_at result i == 1) ≡ meaning.agrees low (8 * (k % 2) + i) }
{
    match low {
        None => 0xff,
        Some(digit) if digit as usize / 8 == k % 2 => 1 << (digit % 8),
        Some(_) => 0,
    }
}

/// One byte of the set of the bytes whose given digits agree.
fn agreeing_byte(high: Option<u8>, low: Option<u8>, k: usize) -> u8
    requires { k < 32 }
    ensures { HasBits (meaning.halves_agree high low) k result }
{
    if agrees(high, k as u8 / 2) {
        low_bits(low, k)
    } else {
        0
    }
}

/// The bytes whose given digits agree.
fn agreeing(high: Option<u8>, low: Option<u8>) -> ByteSet
    ensures { bytes_of result ≡ meaning.agreeing high low }
{
    let mut bits = [0; 32];
    for k in 0..32 {
        bits[k] = agreeing_byte(high, low, k);
    }
    ByteSet { bits }
}

fn class_of(negated: bool, high: Option<u8>, low: Option<u8>) -> ByteSet
    ensures { bytes_of result ≡ meaning.class_of negated high low }
{
    let set = agreeing(high, low);
    if negated { set.complement() } else { set }
}

#[tactic(auto, unfolding(crate::specs::Reading::read_halves))]
fn halves(text: &mut Cursor<'_>, negated: bool) -> Result<ByteSet, HexFault>
    ensures { Yields bytes_of (spec.read_halves negated text.old) result text.new }
{
    let high = read_half(text)?;
    let low = read_half(text)?;
    if negated && high.is_none() && low.is_none() {
        return Err(HexFault::HexSyntax);
    }
    Ok(class_of(negated, high, low))
}

/// Two halves, or `~` and two halves that are not both any.
#[tactic(auto, unfolding(crate::specs::Reading::read_byte))]
pub fn byte(text: &mut Cursor<'_>) -> Result<ByteSet, HexFault>
    ensures { Yields bytes_of (spec.read_byte text.old) result text.new }
{
    let negated = text.eat(b'~');
    halves(text, negated)
}
