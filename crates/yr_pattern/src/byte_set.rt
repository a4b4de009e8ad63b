//! Sets of bytes.

ghost use Rattle.std.specs.Prelude.{◌≡◌, ◌<◌};
ghost use Rattle.yr_pattern.specs.Set.{no_byte, only, either, all_but, in_either_case, HasBits};

/// The capital letters among the bytes 64 to 95. The small ones stand 32 bytes after them.
const CAPITALS: [u8; 4] = [0xfe, 0xff, 0xff, 0x07];

/// A set of bytes: byte `b` is bit `b % 8` of `bits[b / 8]`.
#[derive(Clone, Copy, Debug, PartialEq, Eq)]
pub struct ByteSet {
    pub bits: [u8; 32],
}

impl ByteSet {
    ghost use Rattle.yr_pattern.specs.Set.{bytes_of};

    /// No byte.
    pub fn none() -> ByteSet
        ensures { bytes_of result ≡ no_byte }
    {
        ByteSet { bits: [0; 32] }
    }

    /// One byte.
    pub fn one(b: u8) -> ByteSet
        ensures { bytes_of result ≡ only b }
    {
        ByteSet::none().with(b)
    }

    /// The set and one more byte.
    pub fn with(&self, b: u8) -> ByteSet
        ensures { bytes_of result ≡ either (bytes_of self.now) (only b) }
    {
        let mut bits = self.bits;
        bits[b as usize / 8] |= 1 << (b % 8);
        ByteSet { bits }
    }

    /// Whether a byte is in the set.
    pub fn contains(&self, b: u8) -> bool
        ensures { result ≡ bytes_of self.now b }
    {
        self.bits[b as usize / 8] >> (b % 8) & 1 == 1
    }

    /// The bytes of either set.
    pub fn union(&self, other: &ByteSet) -> ByteSet
        ensures { bytes_of result ≡ either (bytes_of self.now) (bytes_of other.now) }
    {
        let mut bits = [0; 32];
        for k in 0..32 {
            bits[k] = self.bits[k] | other.bits[k];
        }
        ByteSet { bits }
    }

    /// The bytes that are not in the set.
    pub fn complement(&self) -> ByteSet
        ensures { bytes_of result ≡ all_but (bytes_of self.now) }
    {
        let mut bits = [0; 32];
        for k in 0..32 {
            bits[k] = !self.bits[k];
        }
        ByteSet { bits }
    }

    /// The set, with each ASCII letter that it has in one case in both.
    pub fn fold(&self) -> ByteSet
        ensures { bytes_of result ≡ in_either_case (bytes_of self.now) }
    {
        let mut bits = [0; 32];
        for k in 0..32 {
            bits[k] = self.folded_byte(k);
        }
        ByteSet { bits }
    }

    /// One byte of the set in either case.
    fn folded_byte(&self, k: usize) -> u8
        requires { k < 32 }
        ensures { HasBits (in_either_case (bytes_of self.now)) k result }
    {
        let same = self.bits[k];
        match k {
            8..=11 => same | self.bits[k + 4] & CAPITALS[k - 8],
            12..=15 => same | self.bits[k - 4] & CAPITALS[k - 12],
            _ => same,
        }
    }
}
