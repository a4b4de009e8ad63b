//! The front of the program: from rule files to checked rules, or to the first refusal.
#![tactic(auto)]

mod checking;
mod externals;
mod fronting;
mod gathering;
mod naming;
mod numbering;
mod parsing;
mod refusing;
mod unit;

pub use fronting::checked_rules;
