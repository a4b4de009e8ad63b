//! The rows of an image that programs and the automaton are made of.
#![tactic(auto)]

mod moves;
mod nodes;
mod numbers;
mod wellformed;

pub use moves::{Assertion, Move, MoveRow, count_moves, count_sets, set_has};
pub use nodes::{EdgeRow, NodeRow, edge_at, node_at, output_at};
pub use numbers::number_at;
pub use wellformed::{MOST_MOVES, are_wellformed_moves};
