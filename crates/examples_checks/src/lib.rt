//! Rule files on which the checks are tried.
#![tactic(auto)]

#[cfg(test)]
mod answers;
#[cfg(test)]
mod rows;
#[cfg(test)]
mod sets;
#[cfg(test)]
mod texts;
