//! Times the way from rule text to checked rules. With no argument it says only what its parts find
//! in small texts; with the name of a subject, or `all`, how long that takes.
#![tactic(auto)]

mod checks;
mod gathering;
mod parser;
mod stopwatch;

use anyhow::bail;
use std::env;

/// What is timed.
#[derive(Clone, Copy)]
enum Subject {
    /// The lexer and the parser.
    Parser,
    /// The checks, from declarations to checked rules.
    Checks,
}

/// In the order in which they run.
const SUBJECTS: [Subject; 2] = [Subject::Parser, Subject::Checks];

impl Subject {
    fn name(self) -> &'static str {
        match self {
            Subject::Parser => "parser",
            Subject::Checks => "checks",
        }
    }

    fn show(self, rt: HostRuntime) -> anyhow::Result<()> {
        match self {
            Subject::Parser => parser::show_all(rt),
            Subject::Checks => checks::show_all(rt),
        }
    }

    fn time(self, rt: HostRuntime) -> anyhow::Result<()> {
        match self {
            Subject::Parser => parser::time_all(rt),
            Subject::Checks => checks::time_all(rt),
        }
    }
}

fn main(rt: HostRuntime) -> anyhow::Result<()> {
    match env::args(&rt)?.nth(1) {
        Some(asked) => time(rt, asked.as_str()),
        None => show(rt),
    }
}

// What never varies.
fn show(rt: HostRuntime) -> anyhow::Result<()> {
    for subject in SUBJECTS {
        println!(rt; "{}", subject.name())?;
        subject.show(rt)?;
    }
    Ok(())
}

// How long the subject of this name takes, or all.
fn time(rt: HostRuntime, asked: &str) -> anyhow::Result<()> {
    let mut known = false;
    for subject in SUBJECTS {
        if asked == "all" || asked == subject.name() {
            known = true;
            println!(rt; "{}", subject.name())?;
            subject.time(rt)?;
        }
    }
    if !known {
        bail!("no subject is named {asked}");
    }
    Ok(())
}
