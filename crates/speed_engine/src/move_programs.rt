//! The programs that are run over texts, as rows.

use std::alloc::{AllocError, Global};
use yr_rows::Move;

/// The rows of moves and of sets.
#[derive(Drop)]
pub struct Program {
    pub moves: Vec<u8>,
    pub sets: Vec<u8>,
}

/// a+b
pub fn pair(alloc: Global) -> Result<Program, AllocError> {
    let mut program = empty(alloc);
    put_set(&mut program, 1, 0)?;
    put(&mut program, Move::Fork { next: 0, other: 2 })?;
    put_set(&mut program, 3, 1)?;
    put(&mut program, Move::Accept)?;
    put_bytes(&mut program, "a")?;
    put_bytes(&mut program, "b")?;
    Ok(program)
}

/// .{0,200}b
pub fn any_before(alloc: Global) -> Result<Program, AllocError> {
    let mut program = empty(alloc);
    for k in 0..200u32 {
        let next = 2 * k + 1;
        put(&mut program, Move::Fork { next, other: 400 })?;
        put_set(&mut program, 2 * k + 2, 0)?;
    }
    put_set(&mut program, 401, 1)?;
    put(&mut program, Move::Accept)?;
    program.sets.extend_from_slice(&[255; 32])?;
    put_bytes(&mut program, "b")?;
    Ok(program)
}

/// (a|b)*c
pub fn letters(alloc: Global) -> Result<Program, AllocError> {
    let mut program = empty(alloc);
    put(&mut program, Move::Fork { next: 1, other: 4 })?;
    put(&mut program, Move::Fork { next: 2, other: 3 })?;
    put_set(&mut program, 0, 0)?;
    put_set(&mut program, 0, 1)?;
    put_set(&mut program, 5, 2)?;
    put(&mut program, Move::Accept)?;
    put_bytes(&mut program, "a")?;
    put_bytes(&mut program, "b")?;
    put_bytes(&mut program, "c")?;
    Ok(program)
}

/// [a-z]
pub fn class(alloc: Global) -> Result<Program, AllocError> {
    let mut program = empty(alloc);
    put_set(&mut program, 1, 0)?;
    put(&mut program, Move::Accept)?;
    put_bytes(&mut program, "abcdefghijklmnopqrstuvwxyz")?;
    Ok(program)
}

/// a.*b, where the dot is any byte
pub fn runs(alloc: Global) -> Result<Program, AllocError> {
    let mut program = empty(alloc);
    put_set(&mut program, 1, 0)?;
    put(&mut program, Move::Fork { next: 2, other: 3 })?;
    put_set(&mut program, 1, 1)?;
    put_set(&mut program, 4, 2)?;
    put(&mut program, Move::Accept)?;
    put_bytes(&mut program, "a")?;
    program.sets.extend_from_slice(&[255; 32])?;
    put_bytes(&mut program, "b")?;
    Ok(program)
}

/// (a+)+b
pub fn nested(alloc: Global) -> Result<Program, AllocError> {
    let mut program = empty(alloc);
    put_set(&mut program, 1, 0)?;
    put(&mut program, Move::Fork { next: 0, other: 2 })?;
    put(&mut program, Move::Fork { next: 0, other: 3 })?;
    put_set(&mut program, 4, 1)?;
    put(&mut program, Move::Accept)?;
    put_bytes(&mut program, "a")?;
    put_bytes(&mut program, "b")?;
    Ok(program)
}

/// a, up to 200 bytes, b
pub fn gap(alloc: Global) -> Result<Program, AllocError> {
    let mut program = empty(alloc);
    put_set(&mut program, 1, 0)?;
    for k in 0..200u32 {
        let next = 2 * k + 2;
        put(&mut program, Move::Fork { next, other: 401 })?;
        put_set(&mut program, 2 * k + 3, 1)?;
    }
    put_set(&mut program, 402, 2)?;
    put(&mut program, Move::Accept)?;
    put_bytes(&mut program, "a")?;
    program.sets.extend_from_slice(&[255; 32])?;
    put_bytes(&mut program, "b")?;
    Ok(program)
}

fn empty(alloc: Global) -> Program {
    Program {
        moves: Vec::new(alloc),
        sets: Vec::new(alloc),
    }
}

fn put_set(program: &mut Program, next: u32, set: u32) -> Result<(), AllocError> {
    put(program, Move::Set { next, set })
}

fn put(program: &mut Program, v: Move) -> Result<(), AllocError> {
    let row = v.row();
    for number in [row.kind, row.next, row.other, row.set] {
        program.moves.extend_from_slice(&number.to_le_bytes())?;
    }
    Ok(())
}

// The set of these bytes.
fn put_bytes(program: &mut Program, text: &str) -> Result<(), AllocError> {
    let mut bits = [0u8; 32];
    for b in text.as_bytes() {
        bits[*b as usize / 8] |= 1 << (*b % 8);
    }
    program.sets.extend_from_slice(&bits)
}
