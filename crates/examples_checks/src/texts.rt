//! Rule files from the texts of rows.

use std::alloc::Global;
use std::test::Fail;

fn number(word: &str) -> u32 {
    match word.parse::<u32>() {
        Ok(n) => n,
        Err(_) => 0,
    }
}

// A piece with a number in place of its `@`.
fn push_numbered(text: &mut Vec<u8>, piece: &[u8], number: &[u8]) -> Result<(), Fail> {
    for byte in piece {
        if *byte == b'@' {
            text.extend_from_slice(number)?;
        } else {
            text.push(*byte)?;
        }
    }
    Ok(())
}

// A piece so often, with the number of the turn.
fn repeat(alloc: Global, text: &mut Vec<u8>, piece: &[u8], count: u32) -> Result<(), Fail> {
    for turn in 0..count {
        let number = format!(in alloc; "{turn}")?;
        push_numbered(text, piece, number.as_bytes())?;
    }
    Ok(())
}

/// The text of a row: what stands between two `|` comes as often as the number behind it says.
pub fn spread(alloc: Global, row: &str) -> Result<Vec<u8>, Fail> {
    let mut text = Vec::new(alloc);
    let mut piece: &[u8] = b"";
    let mut place = 0;
    for part in row.split('|') {
        match place {
            0 => text.extend_from_slice(part.as_bytes())?,
            1 => piece = part.as_bytes(),
            _ => repeat(alloc, &mut text, piece, number(part))?,
        }
        place = if place >= 2 { 0 } else { place + 1 };
    }
    Ok(text)
}
