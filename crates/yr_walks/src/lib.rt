//! Walks over a file from its end to its front: the ends of a program from every place, and the spans of one split.
#![tactic(auto)]

mod carried;
mod edges;
mod end_walk;
mod span_walk;
mod spread;
mod start_walk;

pub use carried::{Carried, EndList};
pub use edges::Edges;
pub use end_walk::{EndMarks, EndWalk, ends};
pub use span_walk::{Side, SpanMarks, SpanWalk, spans};
pub use spread::{carry, close, join};
pub use start_walk::{StartMarks, StartWalk, starts};
