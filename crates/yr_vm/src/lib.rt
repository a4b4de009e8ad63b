//! The machine that runs the conditions of an image.
#![tactic(auto)]

mod acting;
mod asked;
mod beginning;
mod evaluating;
mod giving;
mod listing;
mod looping;
mod loops;
mod members;
mod names;
mod open_loop;
mod operators;
mod programs;
mod quantity;
mod running;
mod sets;
mod skipping;
mod stack;
mod state;
mod strings;
mod turning;
mod turns;
mod world;

pub use evaluating::evaluate;
