//! The checks, on made rules.

mod checking;
mod texts;
mod timing;

use checking::{checked, declarations};
use texts::{again, alone, apart, chosen, linked, many, named, varied, wild};
use timing::time_checks;

/// Prints how many rules and strings a few small texts have.
pub fn show_all(rt: HostRuntime) -> anyhow::Result<()> {
    show(rt, "rules", &many(rt.alloc(), 20)?)?;
    show(rt, "strings of one rule", &alone(rt.alloc(), 20)?)?;
    show(rt, "strings by their names", &named(rt.alloc(), 20)?)?;
    show(rt, "strings in a set", &chosen(rt.alloc(), 20)?)?;
    show(rt, "items of a set", &again(rt.alloc(), 20, 20)?)?;
    show(rt, "sets of one string", &apart(rt.alloc(), 20)?)?;
    show(rt, "wildcards", &wild(rt.alloc(), 20)?)?;
    show(rt, "links", &linked(rt.alloc(), 20)?)?;
    show(rt, "variants", &varied(rt.alloc(), 20)?)
}

/// Prints how long the checks take.
pub fn time_all(rt: HostRuntime) -> anyhow::Result<()> {
    for count in [5_000, 10_000, 20_000, 40_000, 65_535] {
        time_checks(rt, "rules", count, &many(rt.alloc(), count)?)?;
    }
    for count in [15_000, 30_000, 60_000] {
        time_checks(rt, "strings of one rule", count, &alone(rt.alloc(), count)?)?;
    }
    for count in [5_000, 10_000, 20_000] {
        time_checks(
            rt,
            "strings by their names",
            count,
            &named(rt.alloc(), count)?,
        )?;
    }
    for count in [7_500, 15_000, 30_000, 60_000] {
        time_checks(rt, "strings in a set", count, &chosen(rt.alloc(), count)?)?;
    }
    for items in [125_000, 250_000, 500_000] {
        time_checks(
            rt,
            "items of a set",
            items,
            &again(rt.alloc(), 60_000, items)?,
        )?;
    }
    for count in [10_000, 20_000, 40_000, 60_000] {
        time_checks(rt, "sets of one string", count, &apart(rt.alloc(), count)?)?;
    }
    for count in [3_000, 15_000, 30_000, 60_000] {
        time_checks(rt, "wildcards", count, &wild(rt.alloc(), count)?)?;
    }
    for count in [25_000, 50_000, 100_000] {
        time_checks(rt, "links", count, &linked(rt.alloc(), count)?)?;
    }
    for count in [250, 500, 1_000] {
        time_checks(rt, "variants", count, &varied(rt.alloc(), count)?)?;
    }
    Ok(())
}

// How many rules and strings are in a text.
fn show(rt: HostRuntime, name: &str, text: &[u8]) -> anyhow::Result<()> {
    let found = declarations(rt.alloc(), text)?;
    let rules = checked(rt.alloc(), found)?;
    let count = rules.rules().len();
    let strings = rules.strings().len();
    println!(rt; "{name}: {count} rules, {strings} strings")?;
    Ok(())
}
