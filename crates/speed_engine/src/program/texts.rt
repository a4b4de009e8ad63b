//! Regular expressions that are costly for their length, and those that nest deepest.

use std::alloc::{AllocError, Global};

/// How deep groups may nest.
const DEPTH: usize = 64;

fn push_each(text: &mut Vec<u8>, piece: &str, count: usize) -> Result<(), AllocError> {
    for _each in 0..count {
        text.extend_from_slice(piece.as_bytes())?;
    }
    Ok(())
}

/// A part of so many bytes that has no move, in 32,000 copies of a group.
pub fn long_part(alloc: Global, count: usize) -> Result<Vec<u8>, AllocError> {
    let mut text = Vec::new(alloc);
    push_each(&mut text, "(a(", 1)?;
    push_each(&mut text, "b", count)?;
    push_each(&mut text, "){0}){32000}", 1)?;
    Ok(text)
}

/// So many empty groups, in 32,767 copies of a group.
pub fn empty_groups(alloc: Global, count: usize) -> Result<Vec<u8>, AllocError> {
    let mut text = Vec::new(alloc);
    push_each(&mut text, "(a", 1)?;
    push_each(&mut text, "()", count)?;
    push_each(&mut text, "){32767}", 1)?;
    Ok(text)
}

/// Fourteen groups in one another, each twice, each with a part of so many bytes that has no move.
pub fn long_parts(alloc: Global, count: usize) -> Result<Vec<u8>, AllocError> {
    let mut text = Vec::new(alloc);
    push_each(&mut text, "(", 14)?;
    push_each(&mut text, "a", 1)?;
    for _level in 0..14 {
        push_each(&mut text, "(", 1)?;
        push_each(&mut text, "b", count)?;
        push_each(&mut text, "){0}a){2}", 1)?;
    }
    Ok(text)
}

/// So many bytes in a part that has no move, under optional copies.
pub fn long_option(alloc: Global, count: usize) -> Result<Vec<u8>, AllocError> {
    let mut text = Vec::new(alloc);
    push_each(&mut text, "(a(", 1)?;
    push_each(&mut text, "b", count)?;
    push_each(&mut text, "){0}()){0,32000}", 1)?;
    Ok(text)
}

/// A group with this behind it, and as many groups in it as may nest, each beginning so and ending
/// so, around a middle.
pub fn nested(
    alloc: Global,
    begins: &str,
    middle: &str,
    ends: &str,
    after: &str,
) -> Result<Vec<u8>, AllocError> {
    let mut text = Vec::new(alloc);
    push_each(&mut text, "(", 1)?;
    push_each(&mut text, begins, DEPTH - 1)?;
    push_each(&mut text, middle, 1)?;
    push_each(&mut text, ends, DEPTH - 1)?;
    push_each(&mut text, ")", 1)?;
    push_each(&mut text, after, 1)?;
    Ok(text)
}
