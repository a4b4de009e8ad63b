//! Reports into a sink that counts.

mod counter;
mod images;
mod readable;
mod timing;

use images::Form;
use timing::{said, time};

/// Prints how many puts and bytes small reports are.
pub fn show_all(rt: HostRuntime) -> anyhow::Result<()> {
    run_all(rt, false)
}

/// Prints how fast large reports are written.
pub fn time_all(rt: HostRuntime) -> anyhow::Result<()> {
    run_all(rt, true)
}

fn run_all(rt: HostRuntime, timed: bool) -> anyhow::Result<()> {
    show(rt, timed, "matches", Form::Matches, 10_000_000)?;
    show(rt, timed, "meta", Form::Meta, 50_000_000)?;
    show(rt, timed, "rules", Form::Rules, 65_535)?;
    show(rt, timed, "false global rules", Form::FalseGlobals, 65_535)
}

// How long a small report of a form is, or how fast a large one is written.
fn show(rt: HostRuntime, timed: bool, name: &str, form: Form, size: u32) -> anyhow::Result<()> {
    if timed {
        return time(rt, name, form, size);
    }
    let answer = said(rt.alloc(), form, 3)?;
    println!(rt; "{name}: {answer:?}")?;
    Ok(())
}
