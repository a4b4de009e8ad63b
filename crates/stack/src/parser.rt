//! Rules that nest deepest, parsed.

use crate::gathering::gathered;
use crate::nesting::{nested, prefixed};
use std::alloc::Global;
use yr_parser::parse;

/// What stands before a condition.
const HEAD: &str = "rule a { strings: $a = \"x\" condition: ";

/// Prints how long each rule is, and how many declarations it has.
pub fn show_all(rt: HostRuntime) -> anyhow::Result<()> {
    for (name, front, middle, ends) in [
        ("brackets", "(", "true", ")"),
        (
            "chains",
            "1 or 1 and not 1 == 1 < 1 | 1 ^ 1 & 1 << 1 + 1 * -(",
            "true",
            ") * 1 + 1 << 1 & 1 ^ 1 | 1",
        ),
        ("readers", "uint8(", "1", ")"),
        ("indexes", "a[", "1", "]"),
        ("calls", "a(", "1", ")"),
        ("offsets", "@a[", "1", "]"),
        ("lengths", "!a[", "1", "]"),
        ("ranges", "#a in (1..", "1", ")"),
        ("places", "$a in (1..(", "1", "))"),
        ("loops over ranges", "for any i in (1..2) : (", "true", ")"),
        (
            "loops over lists",
            "for any i in (1, (",
            "1",
            ")) : ( true )",
        ),
        ("loops over strings", "for all of them : (", "true", ")"),
        ("counts of loops", "for (", "1", ") of them : ( true )"),
    ] {
        show(rt, name, &nested(rt.alloc(), HEAD, front, middle, ends)?)?;
    }
    let runs = ("not ", "$a at ", "-");
    let deepest = prefixed(rt.alloc(), HEAD, runs, "(", "true", ")")?;
    show(rt, "prefix operators", &deepest)
}

fn show(rt: HostRuntime, name: &str, text: &[u8]) -> anyhow::Result<()> {
    let bytes = text.len();
    match count(rt.alloc(), text)? {
        Some(count) => println!(rt; "{name}: {bytes} bytes, {count} rule")?,
        None => println!(rt; "{name}: {bytes} bytes, refused")?,
    }
    Ok(())
}

// How many declarations the text has, where it is one.
fn count(alloc: Global, text: &[u8]) -> anyhow::Result<Option<usize>> {
    let tokens = gathered(alloc, text)?;
    match parse(alloc, &tokens) {
        Ok(declarations) => Ok(Some(declarations.len())),
        Err(_) => Ok(None),
    }
}
