//! Names, lists of names with their numbers, and which names an item of a set means.
#![tactic(auto)]

mod front;
mod item;
mod name;
mod numbered;
mod order;
mod ranges;
mod table;
mod twice;
mod walk;
mod wanted;

pub use front::has_front;
pub use item::{begins, means};
pub use name::Name;
pub use numbered::Numbered;
pub use table::Table;
pub use twice::first_twice;
pub use wanted::Wanted;
