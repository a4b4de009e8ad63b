//! How rare short words are in files.
//!
//! Both tables were counted over 120 MB of program files and 40 MB of documents of one Linux machine, the programs with twice the weight.
//! A word's rarity estimates how many bits of luck it takes to meet it: that of its first byte, and for each later byte that of its pair.

ghost use Rattle.std.specs.Prelude.{◌<◌, IfSome};

/// One byte in 2 ^ n of a file is this one; the byte of a row and a column is 16 times the row and the column.
#[rattlefmt::skip]
const BYTE_RARITY: [u8; 256] = [
    2, 6, 7, 8, 7, 7, 8, 9, 7, 9, 8, 9, 9, 9, 8, 7,
    8, 10, 9, 9, 9, 10, 10, 10, 9, 10, 10, 11, 10, 10, 11, 8,
    4, 10, 7, 9, 7, 9, 10, 10, 8, 9, 10, 10, 9, 7, 7, 7,
    8, 7, 8, 8, 8, 8, 8, 9, 8, 8, 8, 9, 7, 7, 7, 11,
    9, 7, 9, 9, 8, 8, 9, 10, 5, 8, 10, 10, 7, 9, 9, 9,
    9, 11, 9, 8, 8, 9, 10, 10, 10, 10, 11, 10, 10, 9, 11, 8,
    9, 6, 8, 6, 7, 5, 7, 8, 7, 6, 10, 9, 6, 7, 6, 6,
    7, 11, 6, 6, 5, 7, 8, 8, 9, 8, 10, 10, 9, 10, 11, 10,
    9, 10, 11, 8, 8, 8, 10, 11, 10, 6, 11, 7, 10, 8, 11, 11,
    9, 10, 11, 11, 10, 11, 11, 11, 10, 11, 11, 11, 11, 11, 11, 10,
    10, 11, 11, 11, 11, 11, 11, 11, 10, 11, 11, 11, 11, 11, 11, 11,
    10, 11, 11, 11, 11, 11, 10, 11, 10, 11, 10, 11, 11, 11, 10, 10,
    8, 9, 10, 9, 10, 10, 10, 9, 10, 10, 11, 11, 9, 11, 11, 11,
    9, 11, 10, 11, 11, 11, 11, 11, 10, 10, 11, 10, 11, 11, 11, 10,
    10, 11, 10, 11, 11, 11, 10, 10, 7, 9, 11, 9, 10, 10, 10, 9,
    10, 11, 10, 10, 11, 11, 10, 10, 9, 10, 10, 10, 10, 9, 9, 5,
];

/// Of the letters behind a letter (rows) one in 2 ^ n is this one (columns), small letters as counted.
#[rattlefmt::skip]
const LETTER_RARITY: [[u8; 26]; 26] = [
    [9, 5, 5, 5, 10, 8, 6, 12, 5, 13, 8, 4, 5, 3, 13, 6, 12, 4, 3, 3, 7, 6, 7, 9, 7, 12],
    [3, 8, 7, 6, 3, 7, 9, 11, 5, 5, 10, 3, 9, 10, 3, 8, 12, 5, 5, 8, 3, 10, 10, 8, 4, 10],
    [5, 8, 7, 9, 4, 8, 11, 4, 6, 11, 5, 2, 8, 10, 2, 8, 11, 4, 6, 4, 6, 9, 12, 8, 9, 13],
    [3, 6, 8, 6, 2, 9, 10, 11, 3, 9, 11, 7, 11, 9, 4, 10, 12, 7, 7, 6, 6, 9, 10, 10, 7, 13],
    [5, 6, 5, 5, 6, 4, 7, 10, 9, 9, 11, 5, 5, 4, 9, 7, 8, 3, 4, 4, 10, 7, 7, 5, 8, 11],
    [5, 9, 9, 8, 5, 4, 9, 13, 4, 14, 13, 7, 7, 6, 4, 9, 12, 5, 8, 7, 6, 10, 11, 12, 8, 14],
    [6, 8, 8, 7, 3, 9, 5, 4, 5, 12, 12, 4, 8, 5, 5, 9, 12, 5, 6, 4, 5, 10, 11, 12, 10, 11],
    [4, 8, 11, 9, 2, 10, 9, 11, 4, 12, 10, 6, 9, 10, 4, 9, 12, 2, 9, 3, 7, 11, 11, 12, 10, 12],
    [5, 6, 4, 3, 6, 6, 5, 14, 10, 13, 9, 4, 5, 3, 4, 4, 12, 6, 4, 3, 9, 4, 12, 8, 14, 6],
    [5, 10, 8, 10, 3, 9, 9, 10, 6, 10, 8, 10, 9, 10, 5, 9, 11, 9, 2, 9, 6, 9, 10, 8, 10, 10],
    [6, 6, 9, 8, 3, 9, 7, 10, 5, 11, 11, 8, 10, 7, 7, 9, 10, 9, 6, 8, 8, 11, 3, 10, 7, 8],
    [2, 8, 10, 6, 2, 6, 10, 12, 3, 8, 11, 5, 10, 7, 4, 8, 13, 10, 5, 5, 6, 8, 10, 12, 6, 10],
    [3, 6, 9, 5, 2, 9, 9, 12, 4, 10, 11, 3, 5, 9, 5, 3, 12, 11, 6, 7, 6, 12, 12, 12, 9, 11],
    [5, 8, 5, 4, 4, 7, 4, 10, 4, 12, 6, 7, 9, 7, 4, 8, 12, 10, 4, 3, 6, 7, 9, 14, 8, 12],
    [7, 7, 4, 4, 9, 5, 6, 10, 7, 10, 6, 5, 4, 2, 5, 5, 14, 3, 4, 5, 5, 7, 6, 7, 10, 11],
    [2, 8, 8, 8, 3, 9, 9, 8, 6, 12, 9, 4, 10, 8, 5, 4, 11, 4, 5, 4, 6, 10, 11, 11, 5, 12],
    [9, 7, 9, 9, 10, 8, 8, 9, 9, 10, 10, 6, 9, 9, 9, 9, 9, 7, 8, 8, 2, 10, 10, 10, 10, 10],
    [4, 10, 4, 7, 2, 8, 6, 12, 3, 14, 7, 8, 6, 6, 4, 8, 13, 5, 5, 5, 5, 8, 10, 12, 5, 13],
    [7, 11, 5, 10, 4, 9, 10, 6, 4, 12, 8, 7, 9, 5, 5, 3, 10, 6, 3, 3, 6, 6, 10, 11, 7, 13],
    [4, 10, 7, 6, 3, 8, 11, 4, 4, 12, 10, 6, 5, 10, 4, 6, 12, 4, 6, 5, 7, 11, 8, 10, 6, 11],
    [6, 5, 5, 7, 5, 6, 6, 10, 5, 11, 10, 4, 4, 4, 9, 5, 11, 4, 3, 3, 10, 10, 10, 8, 11, 11],
    [3, 10, 9, 10, 2, 9, 4, 11, 4, 11, 11, 9, 6, 10, 7, 9, 11, 9, 8, 8, 9, 9, 10, 7, 8, 11],
    [4, 5, 9, 9, 3, 10, 10, 4, 3, 12, 11, 8, 9, 6, 4, 7, 11, 5, 6, 8, 10, 11, 4, 10, 11, 10],
    [5, 10, 5, 8, 5, 9, 11, 9, 6, 11, 10, 10, 5, 10, 9, 4, 10, 9, 6, 4, 10, 9, 11, 6, 9, 11],
    [8, 8, 8, 10, 7, 9, 8, 11, 8, 12, 11, 5, 6, 5, 6, 3, 13, 5, 5, 5, 8, 11, 7, 11, 8, 10],
    [6, 10, 9, 8, 2, 9, 10, 8, 6, 11, 10, 6, 4, 10, 7, 10, 11, 10, 9, 8, 8, 10, 10, 9, 8, 8],
];

/// Of the bytes behind a byte that is no letter, about one in 2 ^ 2 is the same again.
const REPEATED: u8 = 2;

/// The number of a letter in the alphabet.
fn letter(b: u8) -> Option<usize>
    ensures { IfSome result (λ k. k < 26) }
{
    let small = b.to_ascii_lowercase();
    if b'a' <= small && small <= b'z' {
        Some((small - b'a') as usize)
    } else {
        None
    }
}

/// How rare a byte is behind another.
fn rarity_behind(before: u8, b: u8) -> u8 {
    match (letter(before), letter(b)) {
        (Some(row), Some(column)) => LETTER_RARITY[row][column],
        _ if before == b => REPEATED,
        _ => BYTE_RARITY[b as usize],
    }
}

/// How rare the words are that a file may have for these bytes of a literal. A letter in both cases counts one less, since it doubles the words.
pub fn rarity(word: &[u8], key: u8, fold: bool) -> u32 {
    let mut sum = 0u32;
    let mut before = None;
    for b in word {
        let read = if fold { b.to_ascii_lowercase() } else { *b };
        let twice = fold && letter(*b).is_some();
        sum = sum
            .saturating_add(rarity_next(before, read ^ key))
            .saturating_sub(u32::from(twice));
        before = Some(read ^ key);
    }
    sum
}

/// How rare a byte is at the front of a word, or behind a byte.
fn rarity_next(before: Option<u8>, b: u8) -> u32 {
    match before {
        Some(before) => u32::from(rarity_behind(before, b)),
        None => u32::from(BYTE_RARITY[b as usize]),
    }
}
