//! An image that is being made: its tables grow at their ends, and what stood in them stays.
#![tactic(auto)]

mod draft;
mod filling;
pub mod laws;

pub use draft::ImageDraft;
