// Vectors of 16 bytes, lane by lane.
ghost use Rattle.std.specs.Prelude.{◌≡◌, ℕ, ◌+◌, ◌/◌, ◌%◌, ◌<◌, ◌≤◌, ◌==◌, if◌then◌else◌, length, slice_index, bit_and, bit_or, bit_xor, IsTrue};
ghost use Rattle.yr_base.specs.Bytes.{lowered};
ghost use Rattle.yr_lanes.specs.Lanes.{HasLanes, IsClear};

use std::simd::prelude::*;

/// How many bytes a vector holds.
pub(crate) const LANES: usize = 16;

#[inline(always)]
pub(crate) fn load(bytes: &[u8], at: usize) -> u8x16
    requires { at + 16 ≤ length bytes.now }
    ensures { HasLanes result (λ k. slice_index bytes.now (at + k)) }
{
    u8x16::from_slice(&bytes[at..])
}

/// All bits where the lane is `byte`, else none.
#[inline(always)]
pub(crate) fn equal_to(block: u8x16, byte: u8) -> u8x16
    ensures { HasLanes result (λ k. if slice_index block k == byte then 255 else 0) }
{
    block
        .simd_eq(u8x16::splat(byte))
        .select(u8x16::splat(255), u8x16::splat(0))
}

#[inline(always)]
pub(crate) fn both(a: u8x16, b: u8x16) -> u8x16
    ensures { HasLanes result (λ k. bit_and (slice_index a k) (slice_index b k)) }
{
    a & b
}

#[inline(always)]
pub(crate) fn either(a: u8x16, b: u8x16) -> u8x16
    ensures { HasLanes result (λ k. bit_or (slice_index a k) (slice_index b k)) }
{
    a | b
}

#[inline(always)]
pub(crate) fn difference(a: u8x16, b: u8x16) -> u8x16
    ensures { HasLanes result (λ k. bit_xor (slice_index a k) (slice_index b k)) }
{
    a ^ b
}

#[inline(always)]
pub(crate) fn under_key(block: u8x16, key: u8) -> u8x16
    ensures { HasLanes result (λ k. bit_xor (slice_index block k) key) }
{
    block ^ u8x16::splat(key)
}

/// Capital letters as small ones.
#[inline(always)]
pub(crate) fn in_lower_case(block: u8x16) -> u8x16
    ensures { HasLanes result (λ k. lowered (slice_index block k)) }
{
    let is_upper = block.simd_ge(u8x16::splat(b'A')) & block.simd_le(u8x16::splat(b'Z'));
    is_upper.select(block + u8x16::splat(32), block)
}

/// The table's entry at the lower half of each byte.
#[inline(always)]
pub(crate) fn by_lower_half(table: &[u8; 16], block: u8x16) -> u8x16
    ensures { HasLanes result (λ k. slice_index table.now (slice_index block k % 16)) }
{
    u8x16::from_array(*table).swizzle_dyn(block & u8x16::splat(15))
}

/// The table's entry at the upper half of each byte.
#[inline(always)]
pub(crate) fn by_upper_half(table: &[u8; 16], block: u8x16) -> u8x16
    ensures { HasLanes result (λ k. slice_index table.now (slice_index block k / 16)) }
{
    u8x16::from_array(*table).swizzle_dyn(block >> u8x16::splat(4))
}

/// Whether each lane is 0.
#[inline(always)]
pub(crate) fn is_clear(lanes: u8x16) -> bool
    ensures { IsTrue result → IsClear lanes 16 }
{
    lanes.simd_ne(u8x16::splat(0)).to_bitmask() == 0
}

/// How many lanes are 0 before the first that is not.
#[inline(always)]
pub(crate) fn clear_lanes(lanes: u8x16) -> usize
    ensures within { result ≤ 16 }
    ensures clear { IsClear lanes result }
{
    let marks = lanes.simd_ne(u8x16::splat(0)).to_bitmask();
    if marks == 0 {
        return LANES;
    }
    marks.trailing_zeros() as usize
}
