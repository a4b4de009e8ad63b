//! Whether rows hold.

use crate::failing::fault_when_failing;
use crate::row::{Row, command_of, is_read, last_of, read_row};
use crate::running::{NO_FAULT, run_before, run_line, world_of};
use crate::ways::fault_of_ways;
use std::alloc::Global;
use std::process::Abort;
use yr_base::NoMemory;

// What is wrong with the answer, nothing where it is the row's.
fn fault_of_answer(alloc: Global, row: &Row<'_>) -> Result<&'static str, NoMemory> {
    let command = command_of(alloc, row.text)?;
    let mut world = world_of(alloc, &row.files, NO_FAULT)?;
    run_before(alloc, row.text, command.as_str(), &mut world)?;
    let status = run_line(alloc, command.as_str(), &mut world)?;
    Ok(if !row.is_answered(status, &world) {
        "another answer"
    } else if !row.has_files(&world) {
        "another file"
    } else {
        ""
    })
}

// What is wrong with a row, nothing where it holds.
fn fault_of(alloc: Global, row: &Row<'_>) -> Result<&'static str, NoMemory> {
    if !is_read(row.text) {
        return Ok("a line that says nothing");
    }
    let fault = fault_of_answer(alloc, row)?;
    if !fault.is_empty() {
        return Ok(fault);
    }
    match last_of(row.text, "calls") {
        Some(calls) => fault_when_failing(alloc, row, calls),
        None => match last_of(row.text, "scan") {
            Some(line) => fault_of_ways(alloc, row, line),
            None => Ok(""),
        },
    }
}

// Adds what is wrong with a row, and the row.
fn judge(alloc: Global, text: &str, said: &mut String) -> Result<(), NoMemory> {
    let row = read_row(alloc, text)?;
    let fault = fault_of(alloc, &row)?;
    if !fault.is_empty() {
        said.push_str(fault)?;
        said.push_str(":\n")?;
        said.push_str(text)?;
        said.push_str("\n")?;
    }
    Ok(())
}

// A row, with the lines that stand before each.
fn with_head(alloc: Global, head: &str, row: &str) -> Result<String, NoMemory> {
    let mut text = String::from_str(alloc, head)?;
    text.push_str("\n")?;
    text.push_str(row)?;
    Ok(text)
}

// What is wrong with the rows; their number grows `count`.
fn judged(alloc: Global, head: &str, rows: &str, count: &mut u32) -> Result<String, NoMemory> {
    let mut said = String::new(alloc);
    for row in rows.split("\n\n") {
        let text = with_head(alloc, head, row)?;
        judge(alloc, text.as_str(), &mut said)?;
        *count = count.saturating_add(1);
    }
    Ok(said)
}

/// Ends the test unless so many rows stand between empty lines and each holds, with the lines of `head` before it.
pub fn hold(rt: &impl Abort, alloc: Global, head: &str, rows: &str, wanted: u32) {
    let mut count = 0;
    match judged(alloc, head, rows, &mut count) {
        Ok(said) => assert!(rt; said.is_empty(), "{said}"),
        Err(_) => panic!(rt; "out of memory"),
    }
    assert_eq!(rt; count, wanted);
}
