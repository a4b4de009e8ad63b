//! The lane kernels, beside the plain byte loops.

mod plain;
mod timing;

use std::alloc::{AllocError, Global};
use timing::{time_fold, time_skip, time_xor};
use yr_lanes::{SkipSet, same_fold, same_xor};

/// How many bytes are skipped, none of which is in a set: more than a cache holds.
const FILE: usize = 100_000_000;

/// How many bytes are compared or skipped in a cache.
const RANGE: usize = 1_000_000;

/// Prints that lanes and plain loops agree on a few rows.
pub fn show_all(rt: HostRuntime) -> anyhow::Result<()> {
    let members = numbered();
    let file = filled(rt.alloc(), 200, 1000)?;
    let agree = agrees_on_sets(&members, &file) && agrees_on_ranges(&file);
    println!(rt; "lanes and plain loops agree: {agree}")?;
    Ok(())
}

/// Prints how fast both are.
pub fn time_all(rt: HostRuntime) -> anyhow::Result<()> {
    let alloc = rt.alloc();
    let members: [u8; 128] = numbered();
    let file = filled(alloc, 200, FILE)?;
    let short = filled(alloc, 200, RANGE)?;
    for size in [1, 3, 16, 128] {
        time_skip(rt, &members[..size], &file)?;
        time_skip(rt, &members[..size], &short)?;
    }
    let range = filled(alloc, b'k', RANGE)?;
    let keyed = filled(alloc, b'k' ^ 7, RANGE)?;
    let upper = filled(alloc, b'K', RANGE)?;
    time_xor(rt, &range, &keyed)?;
    time_fold(rt, &range, &upper)
}

fn filled(alloc: Global, byte: u8, count: usize) -> Result<Vec<u8>, AllocError> {
    vec![in alloc; byte; count]
}

fn numbered() -> [u8; 128] {
    let mut members = [0; 128];
    for byte in 0..128u8 {
        members[byte as usize] = byte;
    }
    members
}

fn agrees_on_sets(members: &[u8; 128], file: &[u8]) -> bool {
    for size in [0, 1, 2, 3, 16, 128] {
        let set = &members[..size];
        if SkipSet::new(set).find_from(file, 0) != plain::skip_to(set, file, 0) {
            return false;
        }
    }
    true
}

fn agrees_on_ranges(range: &[u8]) -> bool {
    same_xor(range, range, 0) == plain::same_xor(range, range, 0)
        && same_xor(range, range, 1) == plain::same_xor(range, range, 1)
        && same_fold(range, range) == plain::same_fold(range, range)
}
