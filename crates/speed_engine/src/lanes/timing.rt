//! The least processor time of several passes, each over another range so that none is left out.

use crate::lanes::plain;
use crate::stopwatch::Stopwatch;
use yr_lanes::{SkipSet, same_fold, same_xor};

/// How many passes of a fast loop are timed, and of a plain one.
const FAST: usize = 20;

const PLAIN: usize = 2;

/// How many passes over ranges.
const ROUNDS: usize = 100;

pub(crate) fn time_skip(rt: HostRuntime, set: &[u8], file: &[u8]) -> anyhow::Result<()> {
    let skip_set = SkipSet::new(set);
    let (mut fast, mut slow, mut all) = (Stopwatch::new(), Stopwatch::new(), 0usize);
    for from in 0..FAST.min(file.len()) {
        fast.start(rt)?;
        all ^= skip_set.find_from(file, from);
        fast.stop(rt)?;
    }
    for from in 0..PLAIN.min(file.len()) {
        slow.start(rt)?;
        all ^= plain::skip_to(set, file, from);
        slow.stop(rt)?;
    }
    let (size, bytes) = (set.len(), file.len());
    println!(rt; "skip_to, {size} in the set, {bytes} bytes ({all})")?;
    tell(rt, file, fast, slow)
}

pub(crate) fn time_xor(rt: HostRuntime, a: &[u8], b: &[u8]) -> anyhow::Result<()> {
    let rounds = ROUNDS.min(a.len()).min(b.len());
    let (mut fast, mut slow, mut all) = (Stopwatch::new(), Stopwatch::new(), true);
    for from in 0..rounds {
        fast.start(rt)?;
        all &= same_xor(&a[from..], &b[from..], 7);
        fast.stop(rt)?;
    }
    for from in 0..rounds {
        slow.start(rt)?;
        all &= plain::same_xor(&a[from..], &b[from..], 7);
        slow.stop(rt)?;
    }
    println!(rt; "same_xor ({all})")?;
    tell(rt, a, fast, slow)
}

pub(crate) fn time_fold(rt: HostRuntime, a: &[u8], b: &[u8]) -> anyhow::Result<()> {
    let rounds = ROUNDS.min(a.len()).min(b.len());
    let (mut fast, mut slow, mut all) = (Stopwatch::new(), Stopwatch::new(), true);
    for from in 0..rounds {
        fast.start(rt)?;
        all &= same_fold(&a[from..], &b[from..]);
        fast.stop(rt)?;
    }
    for from in 0..rounds {
        slow.start(rt)?;
        all &= plain::same_fold(&a[from..], &b[from..]);
        slow.stop(rt)?;
    }
    println!(rt; "same_fold ({all})")?;
    tell(rt, a, fast, slow)
}

fn tell(rt: HostRuntime, bytes: &[u8], fast: Stopwatch, slow: Stopwatch) -> anyhow::Result<()> {
    let size = bytes.len();
    let (lanes, plain) = (fast.millions(size) / 1e3, slow.millions(size) / 1e3);
    let times = slow.least / fast.least;
    println!(rt;
        "  {lanes:.2} GB/s by lanes, {plain:.2} GB/s by the plain loop: {times:.1} times"
    )?;
    Ok(())
}
