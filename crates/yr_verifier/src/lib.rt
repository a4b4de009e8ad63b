//! Images that anybody made: which bytes are a wellformed image, and the first check that others fail.
#![tactic(auto)]

mod checking;
mod code;
mod code_names;
pub mod counting;
mod effect;
mod hashing;
mod header;
mod lists;
mod members;
mod name;
mod naming;
mod nodes;
mod programs;
mod reading;
mod repeating;
mod rows;
mod rule_code;
mod sections;
mod stacks;
mod table;
mod verifying;
mod walk;
mod windows;

pub use checking::code_fault;
pub use code_names::in_pool;
pub use lists::Lists;
pub use name::text;
pub use repeating::repeated;
pub use rule_code::Code;
pub use verifying::verify;
pub use walk::Walk;
