//! Times what makes images and what reads them. With no argument it says only what small images
//! are; with the name of a subject, or `all`, how long the work takes. After `compile` a word
//! chooses one of its two kinds of rules.
#![tactic(auto)]

mod compile;
mod drafts;
mod encoding;
mod report;
mod stopwatch;
mod verifier;

use anyhow::bail;
use std::env;

/// What is timed.
#[derive(Clone, Copy)]
enum Subject {
    /// Tables, encoded and read back.
    Encoding,
    /// The check of images.
    Verifier,
    /// The writing of reports.
    Report,
    /// The way from checked rules to an image.
    Compile,
}

/// In the order in which they run.
const SUBJECTS: [Subject; 4] = [
    Subject::Encoding,
    Subject::Verifier,
    Subject::Report,
    Subject::Compile,
];

impl Subject {
    fn name(self) -> &'static str {
        match self {
            Subject::Encoding => "encoding",
            Subject::Verifier => "verifier",
            Subject::Report => "report",
            Subject::Compile => "compile",
        }
    }

    fn show(self, rt: HostRuntime) -> anyhow::Result<()> {
        match self {
            Subject::Encoding => encoding::show_all(rt),
            Subject::Verifier => verifier::show_all(rt),
            Subject::Report => report::show_all(rt),
            Subject::Compile => compile::show_all(rt),
        }
    }

    fn time(self, rt: HostRuntime, chosen: Option<&str>) -> anyhow::Result<()> {
        match self {
            Subject::Encoding => encoding::time_all(rt),
            Subject::Verifier => verifier::time_all(rt),
            Subject::Report => report::time_all(rt),
            Subject::Compile => compile::time_all(rt, chosen),
        }
    }
}

fn main(rt: HostRuntime) -> anyhow::Result<()> {
    let mut words = env::args(&rt)?.skip(1);
    match (words.next(), words.next()) {
        (None, _) => show(rt),
        (Some(asked), None) => time(rt, asked.as_str(), None),
        (Some(asked), Some(chosen)) => time(rt, asked.as_str(), Some(chosen.as_str())),
    }
}

// What never varies.
fn show(rt: HostRuntime) -> anyhow::Result<()> {
    for subject in SUBJECTS {
        println!(rt; "{}", subject.name())?;
        subject.show(rt)?;
    }
    Ok(())
}

// How long the subject of this name takes, or all.
fn time(rt: HostRuntime, asked: &str, chosen: Option<&str>) -> anyhow::Result<()> {
    let mut known = false;
    for subject in SUBJECTS {
        if asked == "all" || asked == subject.name() {
            known = true;
            println!(rt; "{}", subject.name())?;
            subject.time(rt, chosen)?;
        }
    }
    if !known {
        bail!("no subject is named {asked}");
    }
    Ok(())
}
