//! One automaton over all atoms: its rows for given atoms, and the walk over any rows.
#![tactic(auto)]

mod automaton;
mod building;
mod encoding;
mod key;
mod listing;
mod prefix;
mod rows;
mod run;
mod search;

pub use automaton::Automaton;
pub use building::build;
pub use listing::Outputs;
pub use rows::AutomatonRows;
