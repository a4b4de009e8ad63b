//! Goes through the rules that nest deepest and drops what is made of them; the run itself shows
//! that the stack is enough. An argument names the only subject, or `all`, and words after it the
//! only rules of `checks`.
#![tactic(auto)]

mod checks;
mod emission;
mod gathering;
mod nesting;
mod parser;

use anyhow::bail;
use std::env;

/// What the stack has to be enough for.
#[derive(Clone, Copy)]
enum Subject {
    /// From a text to declarations.
    Parser,
    /// From a text to checked rules.
    Checks,
    /// From a condition to code.
    Emission,
}

/// In the order in which they run.
const SUBJECTS: [Subject; 3] = [Subject::Parser, Subject::Checks, Subject::Emission];

impl Subject {
    fn name(self) -> &'static str {
        match self {
            Subject::Parser => "parser",
            Subject::Checks => "checks",
            Subject::Emission => "emission",
        }
    }

    fn show(self, rt: HostRuntime) -> anyhow::Result<()> {
        match self {
            Subject::Parser => parser::show_all(rt),
            Subject::Checks => checks::show_all(rt),
            Subject::Emission => emission::show_all(rt),
        }
    }
}

fn main(rt: HostRuntime) -> anyhow::Result<()> {
    match env::args(&rt)?.nth(1) {
        Some(asked) => show(rt, asked.as_str()),
        None => show(rt, "all"),
    }
}

// The subject of this name, or all.
fn show(rt: HostRuntime, asked: &str) -> anyhow::Result<()> {
    let mut known = false;
    for subject in SUBJECTS {
        if asked == "all" || asked == subject.name() {
            known = true;
            println!(rt; "{}", subject.name())?;
            subject.show(rt)?;
        }
    }
    if !known {
        bail!("no subject is named {asked}");
    }
    Ok(())
}
