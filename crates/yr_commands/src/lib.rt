//! The scanner's top call, and the commands: what each of them reads, finds and writes.
#![tactic(auto)]

mod checking;
mod compiling;
mod program;
mod rules_image;
mod running;
mod scanning;
mod top;
mod working;

pub use program::Program;
pub use running::run;
pub use top::yara_main;
pub use yr_outcome::Status;
