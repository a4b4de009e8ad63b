//! The search of a file for the strings of an image.
#![tactic(auto)]

mod gathered;
mod gathering;
pub mod laws;
mod leaving;
mod node;
mod scene;
mod scratch;
mod searching;
mod settling;
mod skipping;
mod skips;
mod stepping;
mod taking;
mod walking;

pub use scratch::Scratch;
pub use searching::search;
