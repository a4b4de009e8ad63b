//! Hits of the strings of an image in a file, the spans that one hit gives, and those of many hits found together.
#![tactic(auto)]

mod adding;
mod by_ends;
mod by_spans;
mod by_starts;
mod counting;
mod ending;
mod hit;
mod lending;
mod literal;
mod one_by_one;
mod starting;
mod sweeping;

pub use ending::ends_of;
pub use hit::{Ends, Hit, hit_of};
pub use lending::{most_moves, program};
pub use literal::stands;
pub use starting::{add_match, add_matches, only_start};
pub use sweeping::sweep;
