//! The images that are run.

use crate::image_bytes::{put, with_header};
use std::alloc::{AllocError, Global};

/// What the conditions of an image are.
#[derive(Clone, Copy)]
pub enum Form {
    /// `for any i in (1..size) : ( i * 3 + 1 == 5 )`.
    Numbers,
    /// `for any i in (1..size) : ( for all j in (1..1000) : ( j > 0 ) )`.
    Nested,
    /// `for any i in (1..size) : ( uint8(i) == 256 )`.
    Readers,
    /// `for any i in (1..size) : ( any of them )`, with 65,535 strings.
    Members,
    /// So many rules, each of them `true`.
    Rules,
}

/// How many strings the second rule has in `Form::Members`.
const STRINGS: u32 = 65_535;

/// A row of code: its op in the lowest byte and a in the next, b above them, then c and d.
type Row = [u32; 3];

fn numbers(size: u32) -> [Row; 11] {
    [
        [0x01, 0, 1],
        [0x01, 0, size],
        [0x0001_001f, 11, 0],
        [0x07, 0, 0],
        [0x01, 0, 3],
        [0x0015, 0, 0],
        [0x01, 0, 1],
        [0x0315, 0, 0],
        [0x01, 0, 5],
        [0x0416, 0, 0],
        [0x22, 2, 0],
    ]
}

fn nested(size: u32) -> [Row; 11] {
    [
        [0x01, 0, 1],
        [0x01, 0, size],
        [0x0001_001f, 11, 0],
        [0x01, 0, 1],
        [0x01, 0, 1000],
        [0x0000_001f, 10, 0],
        [0x07, 1, 0],
        [0x01, 0, 0],
        [0x0216, 0, 0],
        [0x22, 5, 0],
        [0x22, 2, 0],
    ]
}

fn readers(size: u32) -> [Row; 8] {
    [
        [0x01, 0, 1],
        [0x01, 0, size],
        [0x0001_001f, 8, 0],
        [0x07, 0, 0],
        [0x0312, 0, 0],
        [0x01, 0, 256],
        [0x0416, 0, 0],
        [0x22, 2, 0],
    ]
}

fn members(size: u32) -> [Row; 5] {
    [
        [0x01, 0, 1],
        [0x01, 0, size],
        [0x0001_001f, 5, 0],
        [0x0001_0011, 0, STRINGS],
        [0x22, 2, 0],
    ]
}

fn put_rows(bytes: &mut Vec<u8>, rows: &[Row]) -> Result<(), AllocError> {
    for [op, c, d] in rows {
        put(bytes, &[*op, *c, *d, 0])?;
    }
    put(bytes, &[0; 4])
}

// A rule of so many rows of code and strings, named by the first byte of the pool.
fn put_rule(
    bytes: &mut Vec<u8>,
    strings: u32,
    first_code: u32,
    rows: u32,
) -> Result<(), AllocError> {
    put(bytes, &[0, 1, 0, 0, 0, strings, first_code, rows, 0, 1])
}

// The image of one rule with this code and so many strings, all of which the list names.
fn one_rule(alloc: Global, strings: u32, rows: &[Row]) -> Result<Vec<u8>, AllocError> {
    let count = (rows.len() % 0x1_0000) as u32 + 1;
    let mut body = Vec::new(alloc);
    put_rule(&mut body, strings, 0, count)?;
    for _ in 0..strings {
        put(&mut body, &[0, 1, 0, 0])?;
    }
    put(&mut body, &[0; 6])?;
    for k in 0..strings {
        put(&mut body, &[k])?;
    }
    put_rows(&mut body, rows)?;
    finished(
        alloc,
        &[1, 0, 0, strings, 0, 0, 0, 0, 1, 0, 0, strings, count, 1],
        body,
    )
}

fn rules(alloc: Global, size: u32) -> Result<Vec<u8>, AllocError> {
    let mut body = Vec::new(alloc);
    for k in 0..size {
        put_rule(&mut body, 0, k.wrapping_mul(2), 2)?;
    }
    put(&mut body, &[0; 6])?;
    for _ in 0..size {
        put_rows(&mut body, &[[0x0103, 0, 0]])?;
    }
    let rows = size.wrapping_mul(2);
    finished(
        alloc,
        &[size, 0, 0, 0, 0, 0, 0, 0, 1, 0, 0, 0, rows, 1],
        body,
    )
}

// The image of these rows, and a pool of one byte behind them.
fn finished(alloc: Global, counts: &[u32; 14], mut body: Vec<u8>) -> Result<Vec<u8>, AllocError> {
    body.extend_from_slice(b"a")?;
    with_header(alloc, counts, &body)
}

/// The image of a form and a size.
pub fn image(alloc: Global, form: Form, size: u32) -> Result<Vec<u8>, AllocError> {
    match form {
        Form::Numbers => one_rule(alloc, 0, &numbers(size)),
        Form::Nested => one_rule(alloc, 0, &nested(size)),
        Form::Readers => one_rule(alloc, 0, &readers(size)),
        Form::Members => one_rule(alloc, STRINGS, &members(size)),
        Form::Rules => rules(alloc, size),
    }
}
