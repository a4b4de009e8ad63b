//! Runs of the whole program over files in memory: nothing but tests.
#![tactic(auto)]

#[cfg(test)]
mod conditions;
#[cfg(test)]
mod failing;
#[cfg(test)]
mod faults;
#[cfg(test)]
mod files;
#[cfg(test)]
mod images;
#[cfg(test)]
mod judging;
#[cfg(test)]
mod limits;
#[cfg(test)]
mod modules;
#[cfg(test)]
mod refusals;
#[cfg(test)]
mod row;
#[cfg(test)]
mod running;
#[cfg(test)]
mod scans;
#[cfg(test)]
mod sweeps;
#[cfg(test)]
mod tests;
#[cfg(test)]
mod ways;
#[cfg(test)]
mod words;
