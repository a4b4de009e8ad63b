//! The loops that every scan spends its time in, sixteen bytes at once and proved equal to the plain ones.
#![tactic(auto)]

mod byte_set;
mod lanes;
mod pairing;
mod scan;
mod skip_set;

pub use pairing::{same_fold, same_xor};
pub use skip_set::{SkipSet, skip_to};
