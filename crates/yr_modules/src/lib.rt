//! The modules that rules may import: their names, their values for a file, and that these keep the table of ids of images.
#![tactic(auto)]

pub mod elf;
pub mod hash;
mod joined;
pub mod laws;
mod listing;
pub mod pe;

pub use joined::{FileModules, module_names, modules_of};
