// The loop that all calls share: blocks are passed by their lanes, and what is left one place at a time.
ghost use Rattle.std.specs.Prelude.{◌≡◌, ℕ, ◌+◌, ◌^◌, ◌<◌, ◌≤◌, Bool, true, slice_index, IsTrue};
ghost use Rattle.yr_lanes.specs.Passing.{Passes, IsFirstStop};

use crate::lanes::{LANES, clear_lanes, either, is_clear};
use std::simd::prelude::*;

/// How many places are looked at before one test, where enough are left.
const WIDE: usize = 64;

/// Places from 0 on, each of which is passed or stops the loop.
pub(crate) trait Probe {
    ghost places: { Self → ℕ };

    ghost passes: { Self → ℕ → Bool };

    fn places(&self) -> usize
        ensures { result ≡ places self.now };

    fn passes(&self, at: usize) -> bool
        requires { at < places self.now }
        ensures { result ≡ passes self.now at };

    /// A lane is 0 only where its place is passed.
    fn lanes(&self, at: usize) -> u8x16
        requires { at + 16 ≤ places self.now }
        ensures { (k : ℕ) → k < 16 → slice_index result k ≡ 0 → passes self.now (at + k) ≡ true };
}

/// The least place from `from` on that is not passed, else the end.
#[inline(always)]
pub(crate) fn first_stop<P: Probe>(probe: &P, from: usize) -> usize
    requires { from ≤ P.places probe.now }
    ensures { IsFirstStop (P.passes probe.now) from (P.places probe.now) result }
{
    let places = probe.places();
    let mut at = pass_blocks(probe, from);
    while at < places && probe.passes(at) {
        at += 1;
    }
    at
}

/// Goes past blocks. A stop is often near, so the first block is looked at alone.
#[inline(always)]
fn pass_blocks<P: Probe>(probe: &P, from: usize) -> usize
    requires { from ≤ P.places probe.now }
    ensures low { from ≤ result }
    ensures high { result ≤ P.places probe.now }
    ensures passed { Passes (P.passes probe.now) from result }
{
    let near = pass_block(probe, from);
    if near - from < LANES {
        return near;
    }
    pass_lanes(probe, pass_wide(probe, near))
}

/// Goes past blocks of 64 places that are all passed.
#[inline(always)]
fn pass_wide<P: Probe>(probe: &P, from: usize) -> usize
    requires { from ≤ P.places probe.now }
    ensures low { from ≤ result }
    ensures high { result ≤ P.places probe.now }
    ensures passed { Passes (P.passes probe.now) from result }
{
    let places = probe.places();
    let mut at = from;
    while places - at >= WIDE && is_passed(probe, at) {
        at += WIDE;
    }
    at
}

/// Goes past blocks of 16 places, and in the last of them up to the place that stops it.
#[inline(always)]
fn pass_lanes<P: Probe>(probe: &P, from: usize) -> usize
    requires { from ≤ P.places probe.now }
    ensures low { from ≤ result }
    ensures high { result ≤ P.places probe.now }
    ensures passed { Passes (P.passes probe.now) from result }
{
    let mut at = from;
    loop {
        let next = pass_block(probe, at);
        if next - at < LANES {
            return next;
        }
        at = next;
    }
}

/// Goes past a block of 16 places, or up to the place that stops it. Where fewer are left it stays.
#[inline(always)]
fn pass_block<P: Probe>(probe: &P, from: usize) -> usize
    requires { from ≤ P.places probe.now }
    ensures low { from ≤ result }
    ensures high { result ≤ P.places probe.now }
    ensures passed { Passes (P.passes probe.now) from result }
{
    if probe.places() - from < LANES {
        return from;
    }
    from + clear_lanes(probe.lanes(from))
}

/// Whether all of 64 places are passed.
#[inline(always)]
fn is_passed<P: Probe>(probe: &P, at: usize) -> bool
    requires within { at + 64 ≤ P.places probe.now }
    requires fits { P.places probe.now < 2 ^ 64 }
    ensures { IsTrue result → Passes (P.passes probe.now) at (at + 64) }
{
    let front = either(probe.lanes(at), probe.lanes(at + 16));
    let back = either(probe.lanes(at + 32), probe.lanes(at + 48));
    is_clear(either(front, back))
}
