//! Tests that cross the crates.
#![tactic(auto)]

#[cfg(test)]
mod elf_files;
#[cfg(test)]
mod encoding;
#[cfg(test)]
mod gathering;
#[cfg(test)]
mod hex_strings;
#[cfg(test)]
mod lexer;
#[cfg(test)]
mod move_rows;
#[cfg(test)]
mod pattern;
#[cfg(test)]
mod patterns;
#[cfg(test)]
mod program;
#[cfg(test)]
mod regex;
#[cfg(test)]
mod rule_files;
#[cfg(test)]
mod text;
#[cfg(test)]
mod values;
#[cfg(test)]
mod words;
#[cfg(test)]
mod workload;
