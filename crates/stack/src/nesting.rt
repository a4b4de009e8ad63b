//! Rules whose conditions nest as deep as they may.

use std::alloc::{AllocError, Global};

/// How deep brackets may nest, and how many prefix operators of one kind may follow one another.
const DEPTH: usize = 64;

fn push_each(text: &mut Vec<u8>, piece: &str, count: usize) -> Result<(), AllocError> {
    for _each in 0..count {
        text.extend_from_slice(piece.as_bytes())?;
    }
    Ok(())
}

// How many brackets a piece leaves open.
fn opened(piece: &str) -> usize {
    let mut open: usize = 0;
    for b in piece.as_bytes() {
        open = match b {
            b'(' | b'[' => open.saturating_add(1),
            b')' | b']' => open.saturating_sub(1),
            _ => open,
        };
    }
    open
}

// How often a piece may stand in another one of the same kind.
fn levels(piece: &str) -> usize {
    DEPTH / opened(piece).max(1)
}

/// A rule whose condition, behind its head, has a front, as often as its brackets allow, a middle
/// and as many ends.
pub fn nested(
    alloc: Global,
    head: &str,
    front: &str,
    middle: &str,
    ends: &str,
) -> Result<Vec<u8>, AllocError> {
    let mut text = Vec::new(alloc);
    push_each(&mut text, head, 1)?;
    push_each(&mut text, front, levels(front))?;
    push_each(&mut text, middle, 1)?;
    push_each(&mut text, ends, levels(front))?;
    push_each(&mut text, " }", 1)?;
    Ok(text)
}

/// The same with two runs of prefix operators before each front, and what stands between them.
pub fn prefixed(
    alloc: Global,
    head: &str,
    runs: (&str, &str, &str),
    front: &str,
    middle: &str,
    ends: &str,
) -> Result<Vec<u8>, AllocError> {
    let (first, between, second) = runs;
    let mut text = Vec::new(alloc);
    push_each(&mut text, head, 1)?;
    for _level in 0..levels(front) {
        push_each(&mut text, first, DEPTH)?;
        push_each(&mut text, between, 1)?;
        push_each(&mut text, second, DEPTH)?;
        push_each(&mut text, front, 1)?;
    }
    push_each(&mut text, first, DEPTH)?;
    push_each(&mut text, middle, 1)?;
    push_each(&mut text, ends, levels(front))?;
    push_each(&mut text, " }", 1)?;
    Ok(text)
}
