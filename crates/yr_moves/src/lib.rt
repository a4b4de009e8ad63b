//! The engine of pattern programs: ends, starts and occurrences, over the rows of any program.
#![tactic(auto)]

mod ends;
mod marks;
mod occurrence;
mod pass;
mod rows;
mod start_walk;

pub use ends::best_end;
pub use marks::Marks;
pub use occurrence::occurs;
pub use rows::ProgramRows;
pub use start_walk::{StartWalk, starts};
