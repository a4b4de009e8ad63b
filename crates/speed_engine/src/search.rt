//! The search of files, and of texts in which an atom stands millions of times.

mod images;
mod timing;

use crate::texts::file_or_drawn;
use images::After;
use timing::{Task, time};

/// Prints what is found in short texts.
pub fn show_all(rt: HostRuntime) -> anyhow::Result<()> {
    files(rt, false, b"abcdefghijklmnopqrstuvwxyz")?;
    repeats(rt, false, 20)?;
    far(rt, false, 20)
}

/// Prints how fast the file at this path is searched, or drawn bytes, and such texts.
pub fn time_all(rt: HostRuntime, path: Option<&str>) -> anyhow::Result<()> {
    let file = file_or_drawn(rt, path)?;
    files(rt, true, &file)?;
    repeats(rt, true, 2_500_000)?;
    repeats(rt, true, 5_000_000)?;
    repeats(rt, true, 10_000_000)?;
    far(rt, true, 10_000)?;
    far(rt, true, 20_000)
}

// Atoms over the letters and over nearly all bytes.
fn files(rt: HostRuntime, timed: bool, file: &[u8]) -> anyhow::Result<()> {
    let few = Task {
        name: "1,000 of 26 letters",
        count: 1_000,
        first: b'a',
        letters: 26,
        after: After::Nothing,
    };
    let wide = Task {
        name: "1,000 of 250 bytes",
        first: 3,
        letters: 250,
        ..few
    };
    let many = Task {
        name: "10,000 of 26 letters",
        count: 10_000,
        ..few
    };
    let wide_many = Task {
        name: "10,000 of 250 bytes",
        count: 10_000,
        ..wide
    };
    for task in [few, many, wide, wide_many] {
        time(rt, timed, &task, file)?;
    }
    Ok(())
}

// The atom `aaaa` in a text of so many letters `a`.
fn repeats(rt: HostRuntime, timed: bool, size: usize) -> anyhow::Result<()> {
    let file = vec![in rt.alloc(); b'a'; size]?;
    let alone = Task {
        name: "aaaa",
        count: 1,
        first: b'a',
        letters: 1,
        after: After::Nothing,
    };
    let literal = Task {
        name: "aaaab",
        after: After::Literal,
        ..alone
    };
    let digit = Task {
        name: "aaaa and a digit",
        after: After::Digit,
        ..alone
    };
    for task in [alone, literal, digit] {
        time(rt, timed, &task, &file)?;
    }
    Ok(())
}

// The atom `aaaa`, any bytes, and a digit, in a text of so many letters `a`: each hit reads to the
// end.
fn far(rt: HostRuntime, timed: bool, size: usize) -> anyhow::Result<()> {
    let file = vec![in rt.alloc(); b'a'; size]?;
    let task = Task {
        name: "aaaa, any bytes and a digit",
        count: 1,
        first: b'a',
        letters: 1,
        after: After::AnyThenDigit,
    };
    time(rt, timed, &task, &file)
}
