//! Codes of a rule, each row by its op and its fields a, b, c and d. The row that ends the rule is not written.

use std::alloc::{AllocError, Global};

/// One for each op, and more.
pub const GOOD: &str = "1 0 0 0 5, 27 0 0 0 0; \
    2 0 0 0 1, 27 0 0 0 0; \
    3 1 0 0 0; \
    4 0 0 0 0, 27 0 0 0 0; \
    5 0 0 0 0, 27 0 0 0 0; \
    6 0 0 0 0; \
    1 0 0 0 1, 1 0 0 0 3, 31 0 1 7 0, 7 0 0 0 0, 1 0 0 0 2, 22 0 0 0 0, 34 0 0 2 0; \
    8 0 0 1 0, 27 0 0 0 0; \
    1 0 0 0 0, 8 1 0 16 0, 27 0 0 0 0; \
    1 0 0 0 0, 1 0 0 0 1, 9 0 0 64 0, 27 0 0 0 0; \
    10 0 0 0 0; \
    1 0 0 0 0, 11 0 0 0 0; \
    1 0 0 0 0, 1 0 0 0 9, 12 0 0 0 0; \
    13 0 0 0 0, 27 0 0 0 0; \
    1 0 0 0 0, 1 0 0 0 9, 14 0 0 0 0, 27 0 0 0 0; \
    1 0 0 0 1, 15 0 0 0 0, 27 0 0 0 0; \
    1 0 0 0 1, 16 0 0 0 0, 27 0 0 0 0; \
    17 0 1 0 1; \
    17 3 0 0 1; \
    1 0 0 0 50, 1 0 0 0 0, 17 1 4 0 1; \
    1 0 0 0 0, 18 11 0 0 0, 27 0 0 0 0; \
    1 0 0 0 1, 19 0 0 0 0, 27 0 0 0 0; \
    1 0 0 0 1, 20 0 0 0 0, 27 0 0 0 0; \
    1 0 0 0 1, 1 0 0 0 2, 21 9 0 0 0, 27 0 0 0 0; \
    2 0 0 0 1, 2 0 0 0 1, 22 3 1 0 0; \
    2 0 0 0 1, 2 0 0 0 1, 23 6 0 0 0; \
    2 0 0 0 1, 24 0 0 0 0; \
    3 0 0 0 0, 25 0 0 0 0; \
    1 0 0 0 0, 26 0 0 0 0; \
    3 1 0 0 0, 28 0 0 0 0; \
    3 1 0 0 0, 29 0 0 3 0, 3 0 0 0 0; \
    3 1 0 0 0, 30 0 0 3 0, 3 0 0 0 0; \
    1 0 0 0 1, 1 0 0 0 2, 32 0 0 7 2, 7 0 0 0 0, 1 0 0 0 2, 22 4 0 0 0, 34 0 0 2 0; \
    33 0 0 3 4294967296, 10 1 0 0 0, 34 0 0 0 0; \
    1 0 0 0 1, 1 0 0 0 2, 31 0 1 17 0, 1 0 0 0 1, 1 0 0 0 2, 31 0 1 16 0, 1 0 0 0 1, 1 0 0 0 2, 31 0 1 15 0, 1 0 0 0 1, 1 0 0 0 2, 31 0 1 14 0, 3 1 0 0 0, 34 0 0 11 0, 34 0 0 8 0, 34 0 0 5 0, 34 0 0 2 0";

/// One for each sentence of the check, behind its first failing place.
pub const BAD: &str = "0: 35 0 0 0 0; \
    0: 3 2 0 0 0; \
    2: 1 0 0 0 1, 1 0 0 0 3, 31 0 4 5 0, 3 1 0 0 0, 34 0 0 2 0; \
    0: 2 0 0 3 2, 27 0 0 0 0; \
    0: 3 1 1 0 0; \
    0: 5 0 0 1 0, 27 0 0 0 0; \
    0: 6 0 0 1 0; \
    0: 8 0 0 6 0, 27 0 0 0 0; \
    2: 1 0 0 0 0, 1 0 0 0 1, 9 0 0 1 0, 27 0 0 0 0; \
    0: 17 3 0 1 1; \
    1: 2 0 0 0 1, 24 0 0 1 0; \
    1: 3 1 0 0 0, 19 0 0 0 0, 27 0 0 0 0; \
    3: 3 1 0 0 0, 3 1 0 0 0, 29 0 0 4 0, 25 0 0 0 0; \
    1: 3 1 0 0 0, 0 0 0 0 0, 3 1 0 0 0; \
    2: 3 1 0 0 0, 3 1 0 0 0; \
    1: 3 1 0 0 0, 29 0 0 2 0, 3 0 0 0 0; \
    1: 3 1 0 0 0, 29 0 0 4 0, 3 0 0 0 0; \
    4: 3 1 0 0 0, 29 0 0 4 0, 3 0 0 0 0, 3 0 0 0 0, 25 0 0 0 0; \
    3: 3 1 0 0 0, 29 0 0 4 0, 3 0 0 0 0, 29 0 0 5 0, 3 1 0 0 0; \
    2: 1 0 0 0 1, 1 0 0 0 3, 31 0 1 5 0, 3 1 0 0 0, 3 1 0 0 0; \
    2: 1 0 0 0 1, 1 0 0 0 3, 31 0 1 5 0, 3 1 0 0 0, 34 0 0 1 0; \
    0: 34 0 0 0 0; \
    0: 7 0 0 0 0, 27 0 0 0 0; \
    3: 1 0 0 0 1, 1 0 0 0 3, 31 0 1 5 0, 10 1 0 0 0, 34 0 0 2 0; \
    0: 17 0 1 2 1; \
    0: 17 0 1 1 1; \
    2: 3 1 0 0 0, 3 1 0 0 0, 22 0 2 0 0; \
    1: 1 0 0 0 1, 32 0 0 2 129; \
    14: 1 0 0 0 1, 1 0 0 0 2, 31 0 1 21 0, 1 0 0 0 1, 1 0 0 0 2, 31 0 1 20 0, 1 0 0 0 1, 1 0 0 0 2, 31 0 1 19 0, 1 0 0 0 1, 1 0 0 0 2, 31 0 1 18 0, 1 0 0 0 1, 1 0 0 0 2, 31 0 1 17 0, 3 1 0 0 0, 34 0 0 14 0, 34 0 0 11 0, 34 0 0 8 0, 34 0 0 5 0, 34 0 0 2 0";

fn number(word: &str) -> u64 {
    match word.parse::<u64>() {
        Ok(n) => n,
        Err(_) => 0,
    }
}

/// The place before a colon, and the rows behind it.
pub fn place_and_rows(line: &str) -> (u32, &str) {
    match line.split_once(':') {
        Some((place, rows)) => ((number(place.trim()) % 0x1_0000) as u32, rows),
        None => (0, line),
    }
}

fn put(bytes: &mut Vec<u8>, numbers: &[u32]) -> Result<(), AllocError> {
    for n in numbers {
        bytes.extend_from_slice(&n.to_le_bytes())?;
    }
    Ok(())
}

fn put_row(bytes: &mut Vec<u8>, row: &str) -> Result<(), AllocError> {
    let mut fields = [0; 5];
    let mut k = 0;
    for word in row.split_whitespace() {
        if k < 5 {
            fields[k] = number(word);
            k += 1;
        }
    }
    let [op, a, b, c, d] = fields;
    bytes.extend_from_slice(&[(op % 256) as u8, (a % 256) as u8])?;
    bytes.extend_from_slice(&((b % 65_536) as u16).to_le_bytes())?;
    put(bytes, &[(c % 0x1_0000_0000) as u32])?;
    bytes.extend_from_slice(&d.to_le_bytes())
}

/// The image with two rules, a string of the first, an external variable, a program, a list of 0 and 1, and these rows as
/// the second rule's code.
pub fn image(alloc: Global, rows: &str) -> Result<Vec<u8>, AllocError> {
    let count = (rows.split(',').count() % 0x1_0000) as u32;
    let length = 64 + 80 + 24 + 16 + 8 + 16 + 24 + 8 + 16 * (count + 3) + 4;
    let mut bytes = Vec::new(alloc);
    bytes.extend_from_slice(&[0x59, 0x52, 0x49, 2])?;
    put(
        &mut bytes,
        &[length, 2, 0, 1, 1, 0, 0, 1, 1, 1, 0, 0, 2, count + 3, 4],
    )?;
    put(&mut bytes, &[0, 1, 0, 0, 0, 1, 0, 2, 0, 1])?;
    put(&mut bytes, &[1, 1, 0, 0, 1, 0, 2, count + 1, 0, 1])?;
    put(&mut bytes, &[2, 3, 1, 0, 5, 0])?;
    put(&mut bytes, &[2, 1, 0, 0])?;
    put(&mut bytes, &[0, 1])?;
    put(&mut bytes, &[0; 4])?;
    put(&mut bytes, &[0; 6])?;
    put(&mut bytes, &[0, 1])?;
    put_row(&mut bytes, "3 1 0 0 0")?;
    put_row(&mut bytes, "0 0 0 0 0")?;
    for row in rows.split(',') {
        put_row(&mut bytes, row)?;
    }
    put_row(&mut bytes, "0 0 0 0 0")?;
    bytes.extend_from_slice(b"abxn")?;
    Ok(bytes)
}
