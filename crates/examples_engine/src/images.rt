//! Images made by hand.

use std::alloc::{AllocError, Global};
use yr_automaton::build;
use yr_base::{Atom, NoMemory};

/// What stands on one side of an atom.
#[derive(Clone, Copy)]
pub enum Side {
    Nothing,
    Literal(&'static str),
    /// A program by its number.
    Program(u32),
}

/// A split of a string.
#[derive(Clone, Copy)]
pub struct Piece {
    pub atom: &'static str,
    /// 0 free, 1 plain, 2 wide.
    pub border: u32,
    pub before: Side,
    pub after: Side,
    pub key: u32,
    pub fold: u32,
}

/// A split with nothing on its sides.
pub const fn atom(atom: &'static str) -> Piece {
    Piece {
        atom,
        border: 0,
        before: Side::Nothing,
        after: Side::Nothing,
        key: 0,
        fold: 0,
    }
}

/// The names of the rules and the strings, and texts for conditions: `Hello` at 4, `ELL` at 9, `he` at 12, `LO` at 14
/// and `hELLO` at 16.
const POOL: &str = "abxyHelloELLheLOhELLO";

/// The letter `a`; `e`; `l`; the digits; all bytes.
const SETS: [[u32; 8]; 5] = [
    [0, 0, 0, 2, 0, 0, 0, 0],
    [0, 0, 0, 0x20, 0, 0, 0, 0],
    [0, 0, 0, 0x1000, 0, 0, 0, 0],
    [0, 0x03ff_0000, 0, 0, 0, 0, 0, 0],
    [0xffff_ffff; 8],
];

/// The first move of each program and how many it has: `a*`, `el`, the empty text, a digit, the file's start, two bytes.
const PROGRAMS: [[u32; 2]; 6] = [[0, 3], [3, 3], [6, 1], [7, 2], [9, 2], [11, 3]];

/// Kind, next, other and set of each move.
const MOVES: [[u32; 4]; 14] = [
    [2, 1, 2, 0],
    [1, 0, 0, 0],
    [0, 0, 0, 0],
    [1, 1, 0, 1],
    [1, 2, 0, 2],
    [0, 0, 0, 0],
    [0, 0, 0, 0],
    [1, 1, 0, 3],
    [0, 0, 0, 0],
    [3, 1, 0, 0],
    [0, 0, 0, 0],
    [1, 1, 0, 4],
    [1, 2, 0, 4],
    [0, 0, 0, 0],
];

/// The list rows that conditions name.
const LISTS: [u32; 4] = [0, 1, 0, 0];

fn low(n: usize) -> u32 {
    (n % 0x1_0000_0000) as u32
}

/// Adds numbers of four bytes.
pub fn put(bytes: &mut Vec<u8>, numbers: &[u32]) -> Result<(), AllocError> {
    for n in numbers {
        bytes.extend_from_slice(&n.to_le_bytes())?;
    }
    Ok(())
}

fn number(word: &str) -> u64 {
    match word.parse::<u64>() {
        Ok(n) => n,
        Err(_) => 0,
    }
}

// A row of code from its op and its fields a, b, c and d.
fn put_row(bytes: &mut Vec<u8>, row: &str) -> Result<(), AllocError> {
    let mut fields = [0; 5];
    let mut k = 0;
    for word in row.split_whitespace() {
        if k < 5 {
            fields[k] = number(word);
            k += 1;
        }
    }
    let [op, a, b, c, d] = fields;
    bytes.extend_from_slice(&[(op % 256) as u8, (a % 256) as u8])?;
    bytes.extend_from_slice(&((b % 65_536) as u16).to_le_bytes())?;
    put(bytes, &[(c % 0x1_0000_0000) as u32])?;
    bytes.extend_from_slice(&d.to_le_bytes())
}

// What is not defined in the test's files: `un` is `uint8(filesize)` in two rows, `uf` is `uint8(filesize) == 0` in
// four, and `ut` is `elf.sections[0].name` in two.
fn rows_of(word: &str) -> &str {
    match word.trim() {
        "un" => "4 0 0 0 0, 18 3 0 0 0",
        "uf" => "4 0 0 0 0, 18 3 0 0 0, 1 0 0 0 0, 22 4 0 0 0",
        "ut" => "1 0 0 0 0, 8 1 0 16 0",
        _ => word,
    }
}

/// The rows of code that stand in a text between commas, and the row that ends them.
pub fn code_of(alloc: Global, text: &str) -> Result<Vec<u8>, AllocError> {
    let mut code = Vec::new(alloc);
    for word in text.split(',') {
        for row in rows_of(word).split(',') {
            put_row(&mut code, row)?;
        }
    }
    put_row(&mut code, "0 0 0 0 0")?;
    Ok(code)
}

// Kind, place and length of a side; the bytes of a literal join the pool.
fn placed(pool: &mut Vec<u8>, side: Side) -> Result<(u32, u32, u32), AllocError> {
    match side {
        Side::Nothing => Ok((0, 0, 0)),
        Side::Literal(text) => {
            let place = low(pool.len());
            pool.extend_from_slice(text.as_bytes())?;
            Ok((1, place, low(text.len())))
        }
        Side::Program(number) => Ok((2, number, 0)),
    }
}

fn put_split(
    rows: &mut Vec<u8>,
    pool: &mut Vec<u8>,
    string: u32,
    piece: &Piece,
) -> Result<(), AllocError> {
    let (before, before_place, before_length) = placed(pool, piece.before)?;
    let (after, after_place, after_length) = placed(pool, piece.after)?;
    let kinds = piece.border | before << 8 | after << 16 | (piece.key % 256) << 24;
    let size = low(piece.atom.len() % 5) << 8;
    put(rows, &[string, kinds, piece.fold | size])?;
    put(
        rows,
        &[before_place, before_length, after_place, after_length, 0],
    )
}

fn atom_of(text: &str) -> Atom {
    let mut bytes = [0u8; 4];
    let mut len = 0u8;
    for b in text.as_bytes().iter().take(4) {
        if len < 4 {
            bytes[len as usize] = *b;
            len += 1;
        }
    }
    Atom { bytes, len }
}

fn put_all<const N: usize>(bytes: &mut Vec<u8>, rows: &[[u32; N]]) -> Result<(), AllocError> {
    for row in rows {
        put(bytes, row)?;
    }
    Ok(())
}

// Two rules, the first of which is true and the second has all the strings.
fn put_rules(rows: &mut Vec<u8>, strings: usize, code: &[u8]) -> Result<(), AllocError> {
    put(rows, &[0, 1, 0, 0, 0, 0, 0, 2, 0, 1])?;
    put(
        rows,
        &[1, 1, 0, 0, 0, low(strings), 2, low(code.len() / 16), 0, 1],
    )
}

/// The image of two rules: `a` is true, and `b` has this code and strings of these pieces, with the flags given.
pub fn image(
    alloc: Global,
    flags: u32,
    strings: &[&[Piece]],
    code: &str,
) -> Result<Vec<u8>, NoMemory> {
    let code = code_of(alloc, code)?;
    let mut pool = Vec::new(alloc);
    pool.extend_from_slice(POOL.as_bytes())?;
    let mut rows = Vec::new(alloc);
    put_rules(&mut rows, strings.len(), &code)?;
    let mut splits = Vec::new(alloc);
    let mut atoms = Vec::new(alloc);
    let mut k = 0;
    for pieces in strings {
        put(&mut rows, &[2 + k % 2, 1, flags, 1])?;
        for piece in *pieces {
            put_split(&mut splits, &mut pool, k, piece)?;
            atoms.push(atom_of(piece.atom))?;
        }
        k = k.wrapping_add(1);
    }
    if atoms.len() >= 1 << 30 {
        return Ok(rows);
    }
    let automaton = build(alloc, &atoms)?;
    let lent = automaton.rows();
    rows.append(&mut splits)?;
    put_all(&mut rows, &SETS)?;
    put_all(&mut rows, &PROGRAMS)?;
    put_all(&mut rows, &MOVES)?;
    rows.extend_from_slice(lent.nodes)?;
    rows.extend_from_slice(lent.edges)?;
    rows.extend_from_slice(lent.outputs)?;
    put(&mut rows, &LISTS)?;
    rows.extend_from_slice(&code_of(alloc, "3 1 0 0 0")?)?;
    rows.extend_from_slice(&code)?;
    rows.extend_from_slice(&pool)?;
    let counts = [
        2,
        0,
        0,
        k,
        low(atoms.len()),
        5,
        6,
        14,
        low(lent.nodes.len() / 24),
        low(lent.edges.len() / 8),
        low(lent.outputs.len() / 4),
        4,
        low(code.len() / 16).wrapping_add(2),
        low(pool.len()),
    ];
    let mut bytes = Vec::new(alloc);
    bytes.extend_from_slice(&[0x59, 0x52, 0x49, 2])?;
    put(&mut bytes, &[low(rows.len()).wrapping_add(64)])?;
    put(&mut bytes, &counts)?;
    bytes.append(&mut rows)?;
    Ok(bytes)
}
