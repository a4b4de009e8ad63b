//! The machine that runs conditions.

mod images;
mod nothing;
mod timing;

use images::Form;
use timing::time;

/// Prints which rules of small images hold.
pub fn show_all(rt: HostRuntime) -> anyhow::Result<()> {
    run_all(rt, false)
}

/// Prints how many rows are run a second.
pub fn time_all(rt: HostRuntime) -> anyhow::Result<()> {
    run_all(rt, true)
}

fn run_all(rt: HostRuntime, timed: bool) -> anyhow::Result<()> {
    show(rt, timed, "turns of numbers", Form::Numbers, 1_000_000, 8)?;
    show(rt, timed, "turns in turns", Form::Nested, 1_000, 4_000)?;
    show(rt, timed, "turns of readers", Form::Readers, 1_000_000, 6)?;
    show(rt, timed, "turns over a set", Form::Members, 1_000, 65_535)?;
    show(rt, timed, "rules", Form::Rules, 65_535, 2)
}

// Which rules of a small image of a form hold, or how fast a large one runs: it has so many rounds
// of about so many rows or members each.
fn show(
    rt: HostRuntime,
    timed: bool,
    name: &str,
    form: Form,
    rounds: u32,
    rows: u32,
) -> anyhow::Result<()> {
    let size = if timed { rounds } else { 3 };
    time(rt, timed, name, form, size, rows)
}
