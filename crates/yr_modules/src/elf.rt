//! The fields of ELF files as a module of the rule language.

mod elf_file;
mod entry_point;
mod field;
pub mod laws;
mod layout;
mod module_rows;
mod name;
mod row;
mod table;

pub use elf_file::Elf;
pub use module_rows::elf_names;
