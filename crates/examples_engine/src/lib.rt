//! Tests of the search and of the machine, over images made by hand.
#![tactic(auto)]

#[cfg(test)]
mod atoms;
#[cfg(test)]
mod automaton;
#[cfg(test)]
mod codes;
#[cfg(test)]
mod ends;
#[cfg(test)]
mod images;
#[cfg(test)]
mod lanes;
#[cfg(test)]
mod moves;
#[cfg(test)]
mod pieces;
#[cfg(test)]
mod samples;
#[cfg(test)]
mod scanning;
#[cfg(test)]
mod spans;
