//! Comparisons of two byte strings.
ghost use Rattle.std.specs.Prelude.{◌≡◌, ℕ, ◌+◌, ◌<◌, ◌==◌, ◌↔◌, Bool, true, length, slice_index, bit_xor, IsTrue};
ghost use Rattle.yr_base.specs.Bytes.{lowered};
ghost use Rattle.yr_lanes.specs.Same.{SameUnderKey, SameFolded, AgreesAll};

use crate::lanes::{difference, in_lower_case, load, under_key};
use crate::scan::{Probe, first_stop};
use std::simd::prelude::*;

/// Whether the strings have one length and each byte of `a` is, under the key, that of `b`.
pub fn same_xor(a: &[u8], b: &[u8], key: u8) -> bool
    ensures { IsTrue result ↔ SameUnderKey key a.now b.now }
{
    if a.len() != b.len() {
        return false;
    }
    agree(&UnderKey(key), a, b)
}

/// Whether the strings have one length and are equal but for the case of letters.
pub fn same_fold(a: &[u8], b: &[u8]) -> bool
    ensures { IsTrue result ↔ SameFolded a.now b.now }
{
    if a.len() != b.len() {
        return false;
    }
    agree(&Folded, a, b)
}

#[inline(always)]
fn agree<P: Pairing>(pairing: &P, a: &[u8], b: &[u8]) -> bool
    requires { length a.now ≡ length b.now }
    ensures { IsTrue result ↔ AgreesAll (P.agrees pairing.now) a.now b.now }
{
    first_stop(&Pair { pairing, a, b }, 0) == a.len()
}

/// A relation of two bytes.
trait Pairing {
    ghost agrees: { Self → ℕ → ℕ → Bool };

    fn agrees(&self, a: u8, b: u8) -> bool
        ensures { result ≡ agrees self.now a b };

    /// A lane is 0 only where its bytes agree.
    fn lanes(&self, a: u8x16, b: u8x16) -> u8x16
        ensures { (k : ℕ) → k < 16 → slice_index result k ≡ 0 → agrees self.now (slice_index a k) (slice_index b k) ≡ true };
}

/// The first byte under the key is the second.
#[derive(Drop)]
struct UnderKey(u8);

impl Pairing for UnderKey {
    ghost agrees = { λ s x y. bit_xor x s.0 == y };

    #[inline(always)]
    fn agrees(&self, a: u8, b: u8) -> bool {
        a ^ self.0 == b
    }

    #[inline(always)]
    fn lanes(&self, a: u8x16, b: u8x16) -> u8x16 {
        difference(under_key(a, self.0), b)
    }
}

/// The bytes are equal but for the case of letters.
#[derive(Drop)]
struct Folded;

impl Pairing for Folded {
    ghost agrees = { λ _ x y. lowered x == lowered y };

    #[inline(always)]
    fn agrees(&self, a: u8, b: u8) -> bool {
        a.to_ascii_lowercase() == b.to_ascii_lowercase()
    }

    #[inline(always)]
    fn lanes(&self, a: u8x16, b: u8x16) -> u8x16 {
        difference(in_lower_case(a), in_lower_case(b))
    }
}

/// Two strings of one length, whose places are passed where the bytes agree.
#[derive(Drop)]
struct Pair<'a, P> {
    pairing: &'a P,
    a: &'a [u8],
    b: &'a [u8],
    ghost same_length: { length a.now ≡ length b.now },
}

impl<'a, P: Pairing> Probe for Pair<'a, P> {
    ghost places = { λ s. length s.a.now };

    ghost passes = { λ s k. P.agrees s.pairing.now (slice_index s.a.now k) (slice_index s.b.now k) };

    #[inline(always)]
    fn places(&self) -> usize {
        self.a.len()
    }

    #[inline(always)]
    fn passes(&self, at: usize) -> bool {
        self.pairing.agrees(self.a[at], self.b[at])
    }

    #[inline(always)]
    fn lanes(&self, at: usize) -> u8x16 {
        self.pairing.lanes(load(self.a, at), load(self.b, at))
    }
}
