//! Programs for patterns: the moves of a pattern, read forwards or backwards, as rows of bytes; and the engine that runs them.
#![tactic(auto)]

mod assembly;
mod draft;
mod emission;
mod keeping;
mod program;
mod writing;

pub use assembly::assemble;
pub use program::Program;
pub use yr_moves::{Marks, ProgramRows, StartWalk, best_end, occurs, starts};
