//! Searches, done and timed.

ghost use Rattle.std.specs.Prelude.{◌≡◌, ◌<◌, ◌≤◌, ◌^◌, length};
ghost use Rattle.yr_machine.specs.Verified.{bytes_of};
ghost use Rattle.yr_search.specs.Scratches.{IsScratchFor};

use crate::search::images::{After, atoms, image};
use crate::stopwatch::{RUNS, Stopwatch};
use std::alloc::Global;
use std::marker::Brand;
use std::sync::ledger::{Blank, Ledger};
use yr_answer::Matches;
use yr_base::{NoMemory, Steps};
use yr_machine::VerifiedImage;
use yr_search::{Scratch, search};
use yr_verifier::verify;

/// The longest file.
const LONGEST: usize = 0x1000_0000;

/// What is searched for: so many atoms of four bytes over some letters, and what stands after each.
#[derive(Clone, Copy)]
pub struct Task {
    pub name: &'static str,
    pub count: u32,
    pub first: u8,
    pub letters: u8,
    pub after: After,
}

// How many hits and matches an image has in a file, and how long the scratch and the fastest search
// take.
#[derive(Clone, Copy)]
struct Timed {
    hits: u64,
    matches: u32,
    making: Stopwatch,
    searching: Stopwatch,
}

fn found<L: Ledger>(
    blank: Blank,
    alloc: Global,
    image: &VerifiedImage<'_>,
    file: &[u8],
    scratch: &mut Scratch,
) -> Result<Matches, NoMemory>
    requires name { blank.name ≡ L.name }
    requires parts { blank.parts ≡ L.parts }
    requires some { 0 < blank.parts }
    requires scratch { IsScratchFor (bytes_of image.now) scratch.old }
    requires small { length file.now ≤ 2 ^ 28 }
    ensures { IsScratchFor (bytes_of image.now) scratch.new }
{
    let mut steps = Steps::<L>::begin(blank);
    search(alloc, image, file, scratch, &mut steps)
}

// None where the image is not wellformed, or the file is too long.
fn run(rt: HostRuntime, bytes: &[u8], file: &[u8]) -> anyhow::Result<Option<Timed>> {
    let alloc = rt.alloc();
    let Ok(image) = verify(bytes) else {
        return Ok(None);
    };
    if file.len() > LONGEST {
        return Ok(None);
    }
    let mut making = Stopwatch::new();
    making.start(rt)?;
    let Ok(mut scratch) = Scratch::for_image(alloc, &image) else {
        return Ok(None);
    };
    making.stop(rt)?;
    let mut last = Timed {
        hits: 0,
        matches: 0,
        making,
        searching: Stopwatch::new(),
    };
    for _ in 0..RUNS {
        last.searching.start(rt)?;
        let Ok(matches) = found::<Brand>(Blank::new(1), alloc, &image, file, &mut scratch) else {
            return Ok(None);
        };
        last.searching.stop(rt)?;
        last.hits = matches.hits();
        if matches.strings() > 0 {
            last.matches = matches.count(0);
        }
    }
    Ok(Some(last))
}

/// Prints what a search finds in a file, or how fast it is.
pub fn time(rt: HostRuntime, timed: bool, task: &Task, file: &[u8]) -> anyhow::Result<()> {
    let atoms = atoms(rt.alloc(), task.count, task.first, task.letters)?;
    let Ok(bytes) = image(rt.alloc(), &atoms, task.after) else {
        return Ok(());
    };
    let (name, size) = (task.name, file.len());
    let Some(run) = run(rt, &bytes, file)? else {
        println!(rt; "{name}: not wellformed")?;
        return Ok(());
    };
    let (hits, matches) = (run.hits, run.matches);
    if timed {
        let speed = run.searching.millions(size);
        let (made, taken) = (run.making.least * 1e3, run.searching.least * 1e3);
        println!(rt;
            "{name}: {size} bytes, {taken:.1} ms, {speed:.0} MB/s, scratch {made:.2} ms ({hits} hits, {matches} matches)"
        )?;
    } else {
        println!(rt; "{name} in {size} bytes: {hits} hits, {matches} matches")?;
    }
    Ok(())
}
