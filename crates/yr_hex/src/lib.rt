//! The reader of hex strings, as `{ 4D 5A [2-4] ( 50 | ~?0 ) }` without its braces.
#![tactic(auto)]

mod byte;
mod cursor;
mod fault;
mod gap;
mod item;
mod jump;
pub mod laws;
mod part;
mod reading;

pub use fault::HexFault;
pub use reading::read_hex;
