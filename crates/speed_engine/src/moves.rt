//! The engine of programs of moves, over texts.

mod timing;

use crate::move_programs::{Program, any_before, class, letters, pair};
use timing::{finds, time};

/// How many bytes are searched, and how many where a place has hundreds of moves.
const TEXT: usize = 10_000_000;

const SHORT: usize = 200_000;

/// Prints what the programs find in two short texts.
pub fn show_all(rt: HostRuntime) -> anyhow::Result<()> {
    run_all(rt, false)
}

/// Prints how fast the programs run over a text in which none of them occurs.
pub fn time_all(rt: HostRuntime) -> anyhow::Result<()> {
    run_all(rt, true)
}

fn run_all(rt: HostRuntime, timed: bool) -> anyhow::Result<()> {
    let alloc = rt.alloc();
    show(rt, timed, "a+b", &pair(alloc)?, "aaaaaaaa", "aaab", TEXT, 3)?;
    show(
        rt,
        timed,
        ".{0,200}b",
        &any_before(alloc)?,
        "aaaaaaaa",
        "a b",
        SHORT,
        401,
    )?;
    show(
        rt,
        timed,
        "(a|b)*c",
        &letters(alloc)?,
        "abbabaab",
        "abac",
        TEXT,
        5,
    )?;
    show(
        rt,
        timed,
        "[a-z]",
        &class(alloc)?,
        "01234567",
        "0a0",
        TEXT,
        1,
    )
}

// What a program finds in a text without an occurrence and in one with it, or how fast it runs over
// the first.
fn show(
    rt: HostRuntime,
    timed: bool,
    name: &str,
    program: &Program,
    without: &str,
    with: &str,
    size: usize,
    moves: usize,
) -> anyhow::Result<()> {
    if timed {
        return time(rt, name, program, without.as_bytes(), size, moves);
    }
    let apart = finds(rt.alloc(), program, without.as_bytes());
    let inside = finds(rt.alloc(), program, with.as_bytes());
    println!(rt; "{name}: {apart} in {without}, {inside} in {with}")?;
    Ok(())
}
