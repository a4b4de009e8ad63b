//! Workloads.

ghost use Rattle.std.specs.Prelude.{◌≡◌, ◌+◌, ◌/◌, ◌%◌, ◌^◌, ◌≤◌, ◌++◌, ℕ, flat_map, IfOk};
ghost use Rattle.std.specs.List.{range_with_len};
ghost use Rattle.yr_workload.specs.Workload.{after_draws, rule_line, piece, workload_of};
ghost use Rattle.yr_workload.specs.Made.{work_shown};

use crate::draw::{next, skip, word_of};
use crate::piece::put_piece;
use crate::rules::put_rule;
use std::alloc::Global;
use yr_base::NoMemory;

/// The text of sixteen rules, and a file in which they match.
#[derive(Debug, Drop)]
pub struct Work {
    pub rules: Vec<u8>,
    pub file: Vec<u8>,
}

// The lines of so many rules.
fn put_rules(alloc: Global, number: u64, count: u8) -> Result<Vec<u8>, NoMemory>
    requires { count ≤ 16 }
    ensures { IfOk result (λ rules. rules.items ≡ flat_map (rule_line number) (range_with_len 0 count)) }
{
    let mut rules = Vec::new(alloc);
    for i in 0..count {
        let word = word_of(number, i);
        put_rule(&mut rules, &word, i)?;
    }
    Ok(rules)
}

// The key that a draw gives, by the number after it.
fn key_of(drawn: u64) -> u8
    ensures { result ≡ 1 + drawn / 2 ^ 33 % 255 }
{
    1 + ((drawn >> 33) % 255) as u8
}

// The number after the draw of piece p, by the one before it. Every fourth piece takes a draw, for its key.
fn after_piece(before: u64, p: u32) -> u64
    ensures { (number : ℕ) → before ≡ after_draws number (96 + (p + 1) / 4)
        → result ≡ after_draws number (96 + (p + 2) / 4) }
{
    if p % 4 == 2 { next(before) } else { before }
}

// Adds piece p of a number, and gives the number after its draw.
fn put_next(
    alloc: Global,
    file: &mut Vec<u8>,
    number: u64,
    p: u32,
    before: u64,
) -> Result<u64, NoMemory>
    requires { before ≡ after_draws number (96 + (p + 1) / 4) }
    ensures added { IfOk result (λ after. file.new.items ≡ file.old.items ++ piece number p) }
    ensures after { IfOk result (λ after. after ≡ after_draws number (96 + (p + 2) / 4)) }
{
    let after = after_piece(before, p);
    let word = word_of(number, (p % 16) as u8);
    put_piece(alloc, file, &word, p, key_of(after))?;
    Ok(after)
}

// The file of so many pieces.
fn put_file(alloc: Global, number: u64, size: u32) -> Result<Vec<u8>, NoMemory>
    requires { size ≤ 16777216 }
    ensures { IfOk result (λ file. file.items ≡ flat_map (piece number) (range_with_len 0 size)) }
{
    let mut file = Vec::new(alloc);
    let mut after = skip(number, 96);
    for p in 0..size {
        after = put_next(alloc, &mut file, number, p, after)?;
    }
    Ok(file)
}

/// The workload of a number, with so many pieces in its file.
pub fn make(alloc: Global, number: u64, size: u32) -> Result<Work, NoMemory>
    requires { size ≤ 16777216 }
    ensures work { IfOk result (λ work. work_shown work ≡ workload_of number size) }
{
    let rules = put_rules(alloc, number, 16)?;
    let file = put_file(alloc, number, size)?;
    Ok(Work { rules, file })
}
