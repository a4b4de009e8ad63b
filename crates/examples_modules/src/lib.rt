//! Files on which the modules of the rule language are tried.
#![tactic(auto)]

#[cfg(test)]
mod elf;
#[cfg(test)]
mod hash;
#[cfg(test)]
mod pe;
