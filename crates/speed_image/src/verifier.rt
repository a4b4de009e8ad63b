//! The check of images.

mod images;
mod timing;

use images::Form;
use timing::{said, time};

/// Prints what small images are.
pub fn show_all(rt: HostRuntime) -> anyhow::Result<()> {
    run_all(rt, false)
}

/// Prints how fast large images are checked.
pub fn time_all(rt: HostRuntime) -> anyhow::Result<()> {
    run_all(rt, true)
}

fn run_all(rt: HostRuntime, timed: bool) -> anyhow::Result<()> {
    show(rt, timed, "rules", Form::Rules, 10_000)?;
    show(rt, timed, "code", Form::Code, 4_000_000)?;
    show(rt, timed, "skips", Form::Skips, 1_000_000)?;
    show(rt, timed, "externals, few", Form::Externals, 65_535)?;
    show(rt, timed, "externals, many", Form::Externals, 1_000_000)?;
    show(rt, timed, "lists", Form::Lists, 500_000)
}

// What a small image of a form is, or how fast a large one is checked.
fn show(rt: HostRuntime, timed: bool, name: &str, form: Form, size: u32) -> anyhow::Result<()> {
    if timed {
        return time(rt, name, form, size);
    }
    let answer = said(rt.alloc(), form, 3)?;
    println!(rt; "{name}: {answer}")?;
    Ok(())
}
