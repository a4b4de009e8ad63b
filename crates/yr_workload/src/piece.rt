//! The pieces of the file.

ghost use Rattle.std.specs.Prelude.{◌≡◌, ◌++◌, ◌∷◌, [], ◌%◌, ◌-◌, ℕ, map, flat_map, bit_xor, if◌then◌else◌, true, OnOk};
ghost use Rattle.base64.specs.Alphabets.{standard};
ghost use Rattle.base64.specs.Rfc4648.{encode};
ghost use Rattle.base64.specs.Alphabet.{alphabet_symbols, alphabet_padding};
ghost use Rattle.yr_base.specs.Bytes.{is_lower};
ghost use Rattle.yr_workload.specs.Workload.{wide_capital, key, piece_of};

use base64::engine::general_purpose::STANDARD;
use std::alloc::Global;
use yr_base::NoMemory;

// A small letter as a capital.
fn capital(b: u8) -> u8
    ensures { result ≡ (if is_lower b then b - 32 else b) }
{
    if b'a' <= b && b <= b'z' { b - 32 } else { b }
}

// Adds capitals, each with a byte 00 behind it.
fn put_wide(file: &mut Vec<u8>, word: &[u8]) -> Result<(), NoMemory>
    ensures { OnOk result (file.new.items ≡ file.old.items ++ flat_map wide_capital word.now) }
{
    for b in word {
        file.extend_from_slice(&[capital(*b), 0])?;
    }
    Ok(())
}

// Adds bytes under a key.
fn put_keyed(file: &mut Vec<u8>, word: &[u8], mask: u8) -> Result<(), NoMemory>
    ensures { OnOk result (file.new.items ≡ file.old.items ++ map (λ b. bit_xor b mask) word.now) }
{
    for b in word {
        file.push(*b ^ mask)?;
    }
    Ok(())
}

// Adds the base64 text of bytes.
fn put_base64(alloc: Global, file: &mut Vec<u8>, word: &[u8]) -> Result<(), NoMemory>
    ensures { OnOk result (file.new.items ≡ file.old.items
        ++ encode (alphabet_symbols standard) (alphabet_padding standard) true word.now) }
{
    let text = STANDARD.encode(alloc, word)?;
    file.extend_from_slice(text.as_bytes())?;
    Ok(())
}

/// Adds piece p, and a byte 00. Every fourth piece has a key.
pub(crate) fn put_piece(
    alloc: Global,
    file: &mut Vec<u8>,
    word: &[u8],
    p: u32,
    mask: u8,
) -> Result<(), NoMemory>
    ensures { OnOk result ((number : ℕ) → (p % 4 ≡ 2 → mask ≡ key number p)
        → file.new.items ≡ file.old.items ++ (piece_of number p word.now ++ 0 ∷ [])) }
{
    match p % 4 {
        0 => file.extend_from_slice(word)?,
        1 => put_wide(file, word)?,
        2 => put_keyed(file, word, mask)?,
        _ => put_base64(alloc, file, word)?,
    }
    file.push(0)?;
    Ok(())
}
