//! Rules that nest deepest, checked.

mod checking;

use crate::nesting::{nested, prefixed};
use checking::said;
use std::env;

/// What stands before a condition.
const HEAD: &str = "import \"elf\" rule a { strings: $a = \"x\" condition: ";

/// Prints how long each rule is, and what the checks say.
pub fn show_all(rt: HostRuntime) -> anyhow::Result<()> {
    for (name, front, middle, ends) in [
        ("brackets", "(", "$a", ")"),
        (
            "chains",
            "$a or $a and not 1 == 1 < 1 | 1 ^ 1 & 1 << 1 + 1 * -(",
            "1",
            ") * 1 + 1 << 1 & 1 ^ 1 | 1",
        ),
        ("sums", "1 | 1 ^ 1 & 1 << 1 + 1 * -uint8(", "1", ")"),
        ("readers", "uint8(", "#a", ")"),
        ("paths", "elf.sections[", "1", "].size"),
        ("indexes", "a[", "1", "]"),
        ("calls", "a(", "1", ")"),
        ("offsets", "@a[", "1", "]"),
        ("lengths", "!a[", "1", "]"),
        ("ranges", "#a in (1..", "1", ")"),
        ("places", "$a in (1..(", "1", "))"),
        ("sets", "1 of them in (1..(", "1", "))"),
        ("counts", "(", "1", ") of ($a*)"),
        ("percents", "(", "1", ")% of ($a*)"),
        ("range-loops", "for any i in (1..2) : (", "$a", ")"),
        ("bound-loops", "for any i in (1..(", "1", ")) : ( true )"),
        ("list-loops", "for any i in (1, (", "1", ")) : ( true )"),
        ("string-loops", "for all of them : (", "true", ")"),
        ("count-loops", "for (", "1", ") of them : ( true )"),
    ] {
        if is_asked(rt, name)? {
            show(rt, name, &nested(rt.alloc(), HEAD, front, middle, ends)?)?;
        }
    }
    for (name, first, between, second, front, middle, ends) in [
        ("prefixes", "not ", "$a at ", "-", "(", "true", ")"),
        ("flags", "not ", "", "", "($a and ", "$a", ")"),
        ("numbers", "~", "", "", "(1 + ", "1", ")"),
        ("bare-flags", "not ", "", "", "(", "$a", ")"),
        ("bare-numbers", "-", "", "", "(", "#a", ")"),
    ] {
        if is_asked(rt, name)? {
            let runs = (first, between, second);
            let text = prefixed(rt.alloc(), HEAD, runs, front, middle, ends)?;
            show(rt, name, &text)?;
        }
    }
    Ok(())
}

// Whether no argument behind the subject names a rule, or one names this.
fn is_asked(rt: HostRuntime, name: &str) -> anyhow::Result<bool> {
    let mut some = false;
    for word in env::args(&rt)?.skip(2) {
        if word.as_str() == name {
            return Ok(true);
        }
        some = true;
    }
    Ok(!some)
}

fn show(rt: HostRuntime, name: &str, text: &[u8]) -> anyhow::Result<()> {
    let bytes = text.len();
    let said = said(rt.alloc(), text)?;
    println!(rt; "{name}: {bytes} bytes, {said}")?;
    Ok(())
}
