//! The command line: what its words mean, what a run writes, and how it ends.
#![tactic(auto)]

mod answer;
pub mod laws;
mod saying;
mod status;
mod target;
pub mod top;
mod writing;

pub use answer::Answer;
pub use saying::{join, refuse, tell};
pub use status::Status;
pub use target::read_target;
pub use writing::{show, write_output};
