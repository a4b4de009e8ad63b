//! The images that are checked.

use crate::drafts::Draft;
use std::alloc::{AllocError, Global};

/// What an image has many of.
#[derive(Clone, Copy)]
pub enum Form {
    /// Rules with a note, a string and eight rows of code.
    Rules,
    /// Rows of code of one rule.
    Code,
    /// Skips in the code of one rule, one after another.
    Skips,
    /// External variables with distinct names.
    Externals,
    /// List rows, and rows of code that name all of them.
    Lists,
}

/// An image of a form and a size.
pub fn image(alloc: Global, form: Form, size: u32) -> Result<Vec<u8>, AllocError> {
    let draft = match form {
        Form::Rules => rules(alloc, size)?,
        Form::Code => code(alloc, size)?,
        Form::Skips => skips(alloc, size)?,
        Form::Externals => externals(alloc, size)?,
        Form::Lists => lists(alloc, size)?,
    };
    draft.image(alloc)
}

// A row of code, with the op in its first byte.
fn put_code(draft: &mut Draft, op: u32, c: u32, d: u32) -> Result<(), AllocError> {
    draft.put(&[op, c, d, 0])
}

// A rule named by the first byte of the pool, with so many notes, strings and rows of code from
// numbers on.
fn put_rule(
    draft: &mut Draft,
    k: u32,
    each: u32,
    first_code: u32,
    rows: u32,
) -> Result<(), AllocError> {
    let first = k.wrapping_mul(each);
    draft.put(&[0, 1, first, each, first, each, first_code, rows, 0, 1])
}

fn rules(alloc: Global, size: u32) -> Result<Draft, AllocError> {
    let mut draft = Draft::new(alloc);
    for k in 0..size {
        put_rule(&mut draft, k, 1, k.wrapping_mul(8), 8)?;
    }
    for _ in 0..size {
        draft.put(&[2, 0, 1, 0, 7, 0])?;
    }
    for k in 0..size {
        draft.put(&[0, 1, 0, k])?;
    }
    draft.put(&[0; 6])?;
    for k in 0..size {
        put_code(&mut draft, 0x0a, k, 0)?;
        put_code(&mut draft, 0x0d, k, 0)?;
        put_code(&mut draft, 0x01, 0, 5)?;
        put_code(&mut draft, 0x0216, 0, 0)?;
        put_code(&mut draft, 0x19, 0, 0)?;
        put_code(&mut draft, 0x0002_0416, 0, 0)?;
        put_code(&mut draft, 0x1b, 0, 0)?;
        put_code(&mut draft, 0, 0, 0)?;
    }
    draft.rows.extend_from_slice(b"a")?;
    draft.counts = [
        size,
        size,
        0,
        size,
        0,
        0,
        0,
        0,
        1,
        0,
        0,
        0,
        size.wrapping_mul(8),
        1,
    ];
    Ok(draft)
}

// One rule, and what its rows of code are.
fn one_rule(alloc: Global, rows: u32) -> Result<Draft, AllocError> {
    let mut draft = Draft::new(alloc);
    put_rule(&mut draft, 0, 0, 0, rows)?;
    draft.put(&[0; 6])?;
    draft.counts = [1, 0, 0, 0, 0, 0, 0, 0, 1, 0, 0, 0, rows, 1];
    Ok(draft)
}

fn code(alloc: Global, size: u32) -> Result<Draft, AllocError> {
    let mut draft = one_rule(alloc, size.wrapping_add(2))?;
    put_code(&mut draft, 0x01, 0, 1)?;
    for k in 0..size {
        let op = if k % 2 == 0 { 0x13 } else { 0x14 };
        put_code(&mut draft, op, 0, 0)?;
    }
    put_code(&mut draft, 0, 0, 0)?;
    draft.rows.extend_from_slice(b"a")?;
    Ok(draft)
}

fn skips(alloc: Global, size: u32) -> Result<Draft, AllocError> {
    let mut draft = one_rule(alloc, size.wrapping_mul(2).wrapping_add(2))?;
    put_code(&mut draft, 0x0103, 0, 0)?;
    for k in 0..size {
        put_code(&mut draft, 0x1d, k.wrapping_mul(2).wrapping_add(3), 0)?;
        put_code(&mut draft, 0x0103, 0, 0)?;
    }
    put_code(&mut draft, 0, 0, 0)?;
    draft.rows.extend_from_slice(b"a")?;
    Ok(draft)
}

fn externals(alloc: Global, size: u32) -> Result<Draft, AllocError> {
    let mut draft = Draft::new(alloc);
    for k in 0..size {
        draft.put(&[2, k.wrapping_mul(8), 8, 0, 7, 0])?;
    }
    draft.put(&[0; 6])?;
    for k in 0..size {
        draft.put_letters(k)?;
    }
    draft.counts = [
        0,
        0,
        size,
        0,
        0,
        0,
        0,
        0,
        1,
        0,
        0,
        0,
        0,
        size.wrapping_mul(8),
    ];
    Ok(draft)
}

fn lists(alloc: Global, size: u32) -> Result<Draft, AllocError> {
    let rows = size.wrapping_mul(2).wrapping_add(1);
    let mut draft = Draft::new(alloc);
    draft.put(&[0, 1, 0, 0, 0, 1, 0, rows, 0, 1])?;
    draft.put(&[0, 1, 0, 0])?;
    draft.put(&[0; 6])?;
    for _ in 0..size {
        draft.put(&[0])?;
    }
    for k in 0..size {
        put_code(&mut draft, 0x11, 1, size.wrapping_sub(2))?;
        if k > 0 {
            put_code(&mut draft, 0x0002_0416, 0, 0)?;
        }
    }
    put_code(&mut draft, 0x1b, 0, 0)?;
    put_code(&mut draft, 0, 0, 0)?;
    draft.rows.extend_from_slice(b"a")?;
    draft.counts = [1, 0, 0, 1, 0, 0, 0, 0, 1, 0, 0, size, rows, 1];
    Ok(draft)
}
