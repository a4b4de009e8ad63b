//! Regular expressions that are costly for their length, read and assembled.

mod texts;

use crate::stopwatch::Stopwatch;
use anyhow::bail;
use texts::{empty_groups, long_option, long_part, long_parts, nested};
use yr_pattern::size;
use yr_program::assemble;
use yr_regex::{Regex, read_regex};

/// Prints how many moves the expressions have.
pub fn show_all(rt: HostRuntime) -> anyhow::Result<()> {
    run_all(rt, false)
}

/// Prints how long reading and assembling take.
pub fn time_all(rt: HostRuntime) -> anyhow::Result<()> {
    run_all(rt, true)
}

fn run_all(rt: HostRuntime, timed: bool) -> anyhow::Result<()> {
    let counts: &[usize] = if timed { &[400_000, 800_000] } else { &[1_000] };
    for count in counts {
        let alloc = rt.alloc();
        show(
            rt,
            timed,
            "one long part without a move",
            &long_part(alloc, *count)?,
        )?;
        show(rt, timed, "empty groups", &empty_groups(alloc, *count / 2)?)?;
        show(
            rt,
            timed,
            "long parts in groups",
            &long_parts(alloc, *count / 14)?,
        )?;
        show(rt, timed, "optional copies", &long_option(alloc, *count)?)?;
    }
    for (begins, ends, after) in [
        ("(", ")", "{32767}"),
        ("(a", ")", "{1000}"),
        ("(a", ")*", "{500}"),
        ("(a|", ")", "{500}"),
        ("(a|", "|b)?", "{200}"),
        ("(^\\b", "$)*", ""),
    ] {
        show(
            rt,
            timed,
            begins,
            &nested(rt.alloc(), begins, "a", ends, after)?,
        )?;
    }
    Ok(())
}

fn read(rt: HostRuntime, text: &[u8]) -> anyhow::Result<Regex> {
    if text.len() > 16_777_216 {
        bail!("too long");
    }
    match read_regex(rt.alloc(), text, false, false) {
        Ok(regex) => Ok(regex),
        Err(fault) => bail!("{fault}"),
    }
}

// The moves of an expression, read and assembled in both directions, or how long that takes.
fn show(rt: HostRuntime, timed: bool, name: &str, text: &[u8]) -> anyhow::Result<()> {
    let (mut reading, mut assembling) = (Stopwatch::new(), Stopwatch::new());
    reading.start(rt)?;
    let regex = read(rt, text)?;
    reading.stop(rt)?;
    if size(&regex.pattern) > 65_535 {
        bail!("too large");
    }
    assembling.start(rt)?;
    let Ok(forwards) = assemble(rt.alloc(), &regex.pattern, false) else {
        bail!("no memory");
    };
    let Ok(backwards) = assemble(rt.alloc(), &regex.pattern, true) else {
        bail!("no memory");
    };
    assembling.stop(rt)?;
    let bytes = text.len();
    let (moves, turned) = (forwards.moves.len() / 16, backwards.moves.len() / 16);
    if timed {
        let (read, assembled) = (reading.least * 1000.0, assembling.least * 500.0);
        println!(rt;
            "{name}: {bytes} bytes read in {read:.1} ms, {moves} moves in {assembled:.1} ms"
        )?;
    } else {
        println!(rt; "{name}: {bytes} bytes, {moves} moves, {turned} turned round")?;
    }
    Ok(())
}
