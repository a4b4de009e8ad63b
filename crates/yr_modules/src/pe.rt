//! The module `pe`: the header fields of PE files.

mod entry_point;
mod field;
mod header;
pub mod laws;
mod module_rows;
mod row;
mod section;
mod with_pe;

pub use module_rows::pe_names;
pub use with_pe::WithPe;
