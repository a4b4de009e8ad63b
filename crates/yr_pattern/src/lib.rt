//! Byte sets, patterns, the variants of a string, and the places that they span.
#![tactic(auto)]

mod byte_set;
mod copying;
mod folding;
pub mod laws;
mod pattern;
mod reversing;
mod sizes;
mod variant;
mod widening;

pub use byte_set::ByteSet;
pub use copying::{copy, copy_each};
pub use folding::fold;
pub use pattern::Pattern;
pub use reversing::reverse;
pub use sizes::{size, sum_of_sizes};
pub use variant::{Variant, VariantBody};
pub use widening::widen;
pub use yr_base::Border;
