//! Variants of a string.

ghost use Rattle.std.specs.Prelude.{◌≡◌, ◌-◌, ◌^◌, min};

use crate::pattern::Pattern;
use crate::sizes::size;
use yr_base::Border;

/// What a variant looks for.
#[derive(Debug, PartialEq, Eq, Drop)]
pub enum VariantBody {
    /// Bytes that the file's bytes give by exclusive or with `key`, in either case of letters where `fold` holds.
    Literal { bytes: Vec<u8>, key: u8, fold: bool },
    /// A pattern.
    Shape(Pattern),
}

/// One form of a string, and what must stand beside a span of it.
#[derive(Debug, PartialEq, Eq, Drop)]
pub struct Variant {
    pub body: VariantBody,
    pub border: Border,
}

impl Variant {
    ghost use Rattle.yr_pattern.specs.Variants.{variant_of, variant_size};

    /// The length of a literal, or the size of a pattern.
    pub fn size(&self) -> u64
        ensures { result ≡ min (variant_size (variant_of self.now)) (2 ^ 64 - 1) }
    {
        match &self.body {
            VariantBody::Literal { bytes, .. } => bytes.len() as u64,
            VariantBody::Shape(pattern) => size(pattern),
        }
    }
}
