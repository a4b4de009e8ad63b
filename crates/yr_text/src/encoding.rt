//! Base64 of a text that stands after unknown bytes.

ghost use Rattle.std.specs.Prelude.{◌≡◌, ◌+◌, ◌*◌, ◌^◌, ◌<◌, ◌≤◌, ◌++◌, length, IfOk, OnOk};
ghost use Rattle.yr_text.specs.Encoding.{text_bit, sextet_at, group_letter, encoded};

use std::alloc::Global;
use yr_base::NoMemory;

/// A bit of a text, the highest bit of a byte first.
fn bit(bytes: &[u8], b: u128) -> u8
    requires { b < 8 * length bytes.now }
    ensures value { result ≡ text_bit bytes.now b }
    ensures small { result < 2 }
{
    bytes[(b / 8) as usize] >> (7 - b % 8) & 1
}

/// The number that six bits spell.
fn sextet(bytes: &[u8], b: u128) -> u8
    requires inside { b + 6 ≤ 8 * length bytes.now }
    requires small { b < 2 ^ 127 }
    ensures value { result ≡ sextet_at bytes.now b }
    ensures small { result < 64 }
{
    bit(bytes, b) * 32
        + bit(bytes, b + 1) * 16
        + bit(bytes, b + 2) * 8
        + bit(bytes, b + 3) * 4
        + bit(bytes, b + 4) * 2
        + bit(bytes, b + 5)
}

/// Adds the letter of a group, where none of its bits is unknown.
#[tactic(auto, unfolding(crate::specs::Encoding::group_letter))]
fn push_letter(
    text: &mut Vec<u8>,
    alphabet: &[u8; 64],
    bytes: &[u8],
    p: u8,
    k: u128,
) -> Result<(), NoMemory>
    requires inside { 6 * k + 6 ≤ 8 * p + 8 * length bytes.now }
    requires small { k < 2 ^ 100 }
    ensures { OnOk result (text.new.items
        ≡ text.old.items ++ group_letter alphabet.now bytes.now p k) }
{
    let unknown = 8 * p as u128;
    if 6 * k < unknown {
        return Ok(());
    }
    let number = sextet(bytes, 6 * k - unknown);
    text.push(alphabet[number as usize])?;
    Ok(())
}

/// The letters of a text that stands after `p` unknown bytes, as far as they are known.
pub fn encode(alloc: Global, alphabet: &[u8; 64], bytes: &[u8], p: u8) -> Result<Vec<u8>, NoMemory>
    ensures { IfOk result (λ text. text.items ≡ encoded alphabet.now bytes.now p) }
{
    let groups = (8 * p as u128 + 8 * bytes.len() as u128) / 6;
    let mut text = Vec::new(alloc);
    for k in 0..groups {
        push_letter(&mut text, alphabet, bytes, p, k)?;
    }
    Ok(text)
}
