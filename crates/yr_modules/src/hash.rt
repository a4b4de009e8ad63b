//! The module `hash`: digests of ranges of a file.

mod digest;
pub mod laws;
mod module_rows;
mod range;
mod with_hash;

pub use module_rows::hash_names;
pub use with_hash::WithHash;
