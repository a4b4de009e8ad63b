//! The images whose reports are written.

use crate::drafts::Draft;
use std::alloc::{AllocError, Global};
use yr_base::Truth;

/// What a report has many of.
#[derive(Clone, Copy)]
pub enum Form {
    /// Matches of one string.
    Matches,
    /// Bytes of a text of meta, all 01.
    Meta,
    /// Rules of one namespace.
    Rules,
    /// Rules, each in a namespace of its own, every other one a false global rule.
    FalseGlobals,
}

/// An image, and the truths of its rules.
#[derive(Drop)]
pub struct Reported {
    pub draft: Draft,
    pub truths: Vec<Truth>,
}

// Rule k without notes and strings, with its namespace.
fn put_rule(draft: &mut Draft, k: u32, flags: u32, namespace: [u32; 2]) -> Result<(), AllocError> {
    let first = k.wrapping_mul(2);
    draft.put(&[
        0,
        flags << 16 | 1,
        0,
        0,
        0,
        0,
        first,
        2,
        namespace[0],
        namespace[1],
    ])
}

// The node, and the code of so many rules, which is true.
fn put_code(draft: &mut Draft, rules: u32) -> Result<(), AllocError> {
    draft.put(&[0; 6])?;
    for _ in 0..rules {
        draft.put(&[0x0103, 0, 0, 0, 0, 0, 0, 0])?;
    }
    Ok(())
}

fn matches(draft: &mut Draft, truths: &mut Vec<Truth>) -> Result<(), AllocError> {
    draft.put(&[0, 1, 0, 0, 0, 1, 0, 2, 0, 1])?;
    draft.put(&[0, 1, 0, 0])?;
    put_code(draft, 1)?;
    draft.rows.push(b'a')?;
    truths.push(Truth::Yes)?;
    draft.counts = [1, 0, 0, 1, 0, 0, 0, 0, 1, 0, 0, 0, 2, 1];
    Ok(())
}

fn meta(draft: &mut Draft, truths: &mut Vec<Truth>, size: u32) -> Result<(), AllocError> {
    draft.put(&[0, 1, 0, 1, 0, 0, 0, 2, 0, 1])?;
    draft.put(&[1, 0, 1, size, 1, 0])?;
    put_code(draft, 1)?;
    draft.rows.push(b'a')?;
    for _ in 0..size {
        draft.rows.push(1)?;
    }
    truths.push(Truth::Yes)?;
    let pool = size.wrapping_add(1);
    draft.counts = [1, 1, 0, 0, 0, 0, 0, 0, 1, 0, 0, 0, 2, pool];
    Ok(())
}

fn rules(draft: &mut Draft, truths: &mut Vec<Truth>, size: u32) -> Result<(), AllocError> {
    for k in 0..size {
        put_rule(draft, k, 0, [0, 1])?;
        truths.push(Truth::Yes)?;
    }
    put_code(draft, size)?;
    draft.rows.push(b'a')?;
    let code = size.wrapping_mul(2);
    draft.counts = [size, 0, 0, 0, 0, 0, 0, 0, 1, 0, 0, 0, code, 1];
    Ok(())
}

// A namespace of 128 bytes whose last eight spell k.
fn put_name(draft: &mut Draft, k: u32) -> Result<(), AllocError> {
    for _ in 0..120 {
        draft.rows.push(b'n')?;
    }
    draft.put_letters(k)
}

fn false_globals(draft: &mut Draft, truths: &mut Vec<Truth>, size: u32) -> Result<(), AllocError> {
    for k in 0..size {
        let global = k % 2;
        put_rule(draft, k, global, [k.wrapping_mul(128), 128])?;
        let truth = if global == 1 { Truth::No } else { Truth::Yes };
        truths.push(truth)?;
    }
    put_code(draft, size)?;
    for k in 0..size {
        put_name(draft, k)?;
    }
    let code = size.wrapping_mul(2);
    let pool = size.wrapping_mul(128);
    draft.counts = [size, 0, 0, 0, 0, 0, 0, 0, 1, 0, 0, 0, code, pool];
    Ok(())
}

/// What the report of a form and a size is on.
pub fn make(alloc: Global, form: Form, size: u32) -> Result<Reported, AllocError> {
    let mut draft = Draft::new(alloc);
    let mut truths = Vec::new(alloc);
    match form {
        Form::Matches => matches(&mut draft, &mut truths)?,
        Form::Meta => meta(&mut draft, &mut truths, size)?,
        Form::Rules => rules(&mut draft, &mut truths, size)?,
        Form::FalseGlobals => false_globals(&mut draft, &mut truths, size)?,
    }
    Ok(Reported { draft, truths })
}
