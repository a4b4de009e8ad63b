//! Conditions that nest deepest, written as code.

mod trees;

use anyhow::bail;
use std::alloc::Global;
use trees::{Form, prefixed, wrapped};
use yr_draft::ImageDraft;
use yr_emission::emit_rule;
use yr_rules::Node;

/// How high a condition may be.
const HEIGHT: u32 = 1024;

/// How many prefix operators a rule file can have below one another: 64 of two kinds in each of 65
/// brackets.
const PREFIXES: u32 = 8320;

/// Prints how many rows of code each condition has.
pub fn show_all(rt: HostRuntime) -> anyhow::Result<()> {
    let alloc = rt.alloc();
    show(
        rt,
        "prefix operators",
        &prefixed(alloc, PREFIXES, Node::Number(1))?,
    )?;
    for (name, form) in [
        ("prefix operators in chains", Form::Prefix),
        ("first operands", Form::First),
        ("second operands", Form::Second),
        ("skipped operands", Form::Skipped),
        ("readers", Form::Read),
        ("indexes", Form::Index),
        ("calls", Form::Call),
        ("ranges", Form::Range),
        ("places", Form::Place),
        ("loops over ranges", Form::OverRange),
        ("loops over lists", Form::OverList),
        ("loops over strings", Form::OverStrings),
        ("counts of quantifiers", Form::Quantifier),
        ("texts", Form::Text),
    ] {
        let mut node = Node::Number(1);
        for _ in 0..HEIGHT {
            node = wrapped(alloc, form, node)?;
        }
        show(rt, name, &node)?;
    }
    Ok(())
}

fn show(rt: HostRuntime, name: &str, condition: &Node) -> anyhow::Result<()> {
    let rows = rows_of(rt.alloc(), condition)?;
    println!(rt; "{name}: {rows} rows")?;
    Ok(())
}

// How many rows of code the condition has.
fn rows_of(alloc: Global, condition: &Node) -> anyhow::Result<u32> {
    let mut draft = ImageDraft::new(alloc);
    let Ok(range) = emit_rule(alloc, &mut draft, &[], condition) else {
        bail!("no memory");
    };
    Ok(range.count)
}
