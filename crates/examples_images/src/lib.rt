//! Images on which their encoding, check and report are tried, and rules that become images.
#![tactic(auto)]

#[cfg(test)]
mod emission;
#[cfg(test)]
mod image;
#[cfg(test)]
mod listings;
#[cfg(test)]
mod report;
#[cfg(test)]
mod splits;
#[cfg(test)]
mod verifier;
