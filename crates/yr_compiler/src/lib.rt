//! The compiler: checked rules become the tables of an image, the rows that reports read among them.
#![tactic(auto)]

mod code;
mod code_range;
mod compiling;
mod external;
pub mod laws;
pub mod listing_laws;
mod note;
mod rule;

pub use code_range::CodeRange;
pub use compiling::compile;
pub use external::put_externals;
pub use rule::{put_rule, put_rules};
