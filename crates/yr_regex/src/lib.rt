//! The reader of regular expressions, as `/\bab[^c-f]+(x|y){2,3}/` without its slashes.
#![tactic(auto)]

mod bounds;
mod class;
mod cursor;
mod element;
mod escape;
mod fault;
pub mod laws;
mod part;
mod regex;

pub use fault::RegexFault;
pub use regex::{Regex, read_regex};
