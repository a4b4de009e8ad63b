// Sets of bytes, and the test of one byte and of sixteen at once.
ghost use Rattle.std.specs.Prelude.{◌≡◌, ℕ, ◌+◌, ◌<◌, ◌≤◌, ◌==◌, ◌||◌, Bool, true, false, not, length, slice_index, Contains, IsTrue, ◌↔◌};
ghost use Rattle.yr_lanes.specs.Rows.{in_rows};

use crate::lanes::{both, by_lower_half, by_upper_half, either, equal_to, load};
use crate::scan::Probe;
use std::simd::prelude::*;

/// The bit that stands for an upper half below 8, by the half.
const FRONT_BITS: [u8; 16] = [1, 2, 4, 8, 16, 32, 64, 128, 0, 0, 0, 0, 0, 0, 0, 0];

/// The bit that stands for an upper half from 8 on, by the half.
const BACK_BITS: [u8; 16] = [0, 0, 0, 0, 0, 0, 0, 0, 1, 2, 4, 8, 16, 32, 64, 128];

/// A set of bytes.
pub(crate) trait ByteSet {
    ghost holds: { Self → ℕ → Bool };

    fn holds(&self, byte: u8) -> bool
        ensures { result ≡ holds self.now byte };

    /// A lane is 0 only where its byte is not in the set.
    fn lanes(&self, block: u8x16) -> u8x16
        ensures { (k : ℕ) → k < 16 → slice_index result k ≡ 0 → holds self.now (slice_index block k) ≡ false };
}

/// One byte.
#[derive(Drop)]
pub(crate) struct One(pub(crate) u8);

impl ByteSet for One {
    ghost holds = { λ s b. b == s.0 };

    #[inline(always)]
    fn holds(&self, byte: u8) -> bool {
        byte == self.0
    }

    #[inline(always)]
    fn lanes(&self, block: u8x16) -> u8x16 {
        equal_to(block, self.0)
    }
}

/// Up to three bytes.
#[derive(Drop)]
pub(crate) struct Few(pub(crate) u8, pub(crate) u8, pub(crate) u8);

impl ByteSet for Few {
    ghost holds = { λ s b. b == s.0 || b == s.1 || b == s.2 };

    #[inline(always)]
    fn holds(&self, byte: u8) -> bool {
        byte == self.0 || byte == self.1 || byte == self.2
    }

    #[inline(always)]
    fn lanes(&self, block: u8x16) -> u8x16 {
        either(
            either(equal_to(block, self.0), equal_to(block, self.1)),
            equal_to(block, self.2),
        )
    }
}

/// Any bytes: by the lower half of a byte, which upper halves go with it. Those below 8 are the
/// bits of `front`, the others those of `back`.
#[derive(Drop)]
pub(crate) struct Rows {
    front: [u8; 16],
    back: [u8; 16],
}

impl Rows {
    pub(crate) fn new(set: &[u8]) -> Rows
        ensures { (b : ℕ) → IsTrue (in_rows result.front result.back b) ↔ Contains set.now b }
    {
        let (mut front, mut back) = ([0; 16], [0; 16]);
        for byte in set {
            let (lower, upper) = ((*byte % 16) as usize, (*byte / 16) as usize);
            front[lower] |= FRONT_BITS[upper];
            back[lower] |= BACK_BITS[upper];
        }
        Rows { front, back }
    }
}

impl ByteSet for Rows {
    ghost holds = { λ s b. in_rows s.front s.back b };

    #[inline(always)]
    fn holds(&self, byte: u8) -> bool {
        let (lower, upper) = ((byte % 16) as usize, (byte / 16) as usize);
        (self.front[lower] & FRONT_BITS[upper]) | (self.back[lower] & BACK_BITS[upper]) != 0
    }

    #[inline(always)]
    fn lanes(&self, block: u8x16) -> u8x16 {
        let front = both(
            by_lower_half(&self.front, block),
            by_upper_half(&FRONT_BITS, block),
        );
        let back = both(
            by_lower_half(&self.back, block),
            by_upper_half(&BACK_BITS, block),
        );
        either(front, back)
    }
}

/// The bytes of a file, which are passed where they are not in the set.
#[derive(Drop)]
pub(crate) struct Outside<'a, S> {
    pub(crate) set: &'a S,
    pub(crate) file: &'a [u8],
}

impl<'a, S: ByteSet> Probe for Outside<'a, S> {
    ghost places = { λ p. length p.file.now };

    ghost passes = { λ p k. not (S.holds p.set.now (slice_index p.file.now k)) };

    #[inline(always)]
    fn places(&self) -> usize {
        self.file.len()
    }

    #[inline(always)]
    fn passes(&self, at: usize) -> bool {
        !self.set.holds(self.file[at])
    }

    #[inline(always)]
    fn lanes(&self, at: usize) -> u8x16 {
        self.set.lanes(load(self.file, at))
    }
}
