//! The report on a scan, line by line.
#![tactic(auto)]

mod adding;
mod counting;
mod gate;
mod line;
mod matching;
mod note;
mod number;
mod quoting;
mod rule;
mod scene;
mod string;
mod text;
mod writing;

pub use writing::write_report;
