//! Times the parts of the engine. With no argument it says only what they find in small texts; with
//! the name of a subject, or `all`, how long that takes. A word after it is the path of a file that
//! `search` and `walks` go over.
#![tactic(auto)]

mod automaton;
mod dice;
mod image_bytes;
mod lanes;
mod move_programs;
mod moves;
mod program;
mod search;
mod stopwatch;
mod texts;
mod vm;
mod walks;

use anyhow::bail;
use std::env;

/// What is timed.
#[derive(Clone, Copy)]
enum Subject {
    /// The building of automata, and steps through them.
    Automaton,
    /// The kernels that look at many bytes at once.
    Lanes,
    /// Programs of moves over a text.
    Moves,
    /// The assembling of programs from regular expressions.
    Program,
    /// The search of a file.
    Search,
    /// Walks over the ends of a program.
    Walks,
    /// The machine that runs conditions.
    Vm,
}

/// In the order in which they run.
const SUBJECTS: [Subject; 7] = [
    Subject::Automaton,
    Subject::Lanes,
    Subject::Moves,
    Subject::Program,
    Subject::Search,
    Subject::Walks,
    Subject::Vm,
];

impl Subject {
    fn name(self) -> &'static str {
        match self {
            Subject::Automaton => "automaton",
            Subject::Lanes => "lanes",
            Subject::Moves => "moves",
            Subject::Program => "program",
            Subject::Search => "search",
            Subject::Walks => "walks",
            Subject::Vm => "vm",
        }
    }

    fn show(self, rt: HostRuntime) -> anyhow::Result<()> {
        match self {
            Subject::Automaton => automaton::show_all(rt),
            Subject::Lanes => lanes::show_all(rt),
            Subject::Moves => moves::show_all(rt),
            Subject::Program => program::show_all(rt),
            Subject::Search => search::show_all(rt),
            Subject::Walks => walks::show_all(rt),
            Subject::Vm => vm::show_all(rt),
        }
    }

    fn time(self, rt: HostRuntime, path: Option<&str>) -> anyhow::Result<()> {
        match self {
            Subject::Automaton => automaton::time_all(rt),
            Subject::Lanes => lanes::time_all(rt),
            Subject::Moves => moves::time_all(rt),
            Subject::Program => program::time_all(rt),
            Subject::Search => search::time_all(rt, path),
            Subject::Walks => walks::time_all(rt, path),
            Subject::Vm => vm::time_all(rt),
        }
    }
}

fn main(rt: HostRuntime) -> anyhow::Result<()> {
    let mut words = env::args(&rt)?.skip(1);
    match (words.next(), words.next()) {
        (None, _) => show(rt),
        (Some(asked), None) => time(rt, asked.as_str(), None),
        (Some(asked), Some(path)) => time(rt, asked.as_str(), Some(path.as_str())),
    }
}

// What never varies.
fn show(rt: HostRuntime) -> anyhow::Result<()> {
    for subject in SUBJECTS {
        println!(rt; "{}", subject.name())?;
        subject.show(rt)?;
    }
    Ok(())
}

// How long the subject of this name takes, or all.
fn time(rt: HostRuntime, asked: &str, path: Option<&str>) -> anyhow::Result<()> {
    let mut known = false;
    for subject in SUBJECTS {
        if asked == "all" || asked == subject.name() {
            known = true;
            println!(rt; "{}", subject.name())?;
            subject.time(rt, path)?;
        }
    }
    if !known {
        bail!("no subject is named {asked}");
    }
    Ok(())
}
