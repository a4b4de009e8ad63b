//! What is searched.

use crate::dice::drawn;
use std::alloc::{AllocError, Global};
use std::fs;

/// How many bytes are drawn where no file is named.
const DRAWN: u32 = 10_000_000;

/// A piece, again and again, in so many bytes.
pub fn repeated(alloc: Global, piece: &[u8], size: usize) -> Result<Vec<u8>, AllocError> {
    let mut text = Vec::new(alloc);
    if !piece.is_empty() {
        for k in 0..size {
            text.push(piece[k % piece.len()])?;
        }
    }
    Ok(text)
}

/// The bytes of the file at this path, or drawn ones.
pub fn file_or_drawn(rt: HostRuntime, path: Option<&str>) -> anyhow::Result<Vec<u8>> {
    match path {
        Some(path) => Ok(fs::read(&rt, path)?),
        None => Ok(drawn(rt.alloc(), DRAWN, 255)?),
    }
}
