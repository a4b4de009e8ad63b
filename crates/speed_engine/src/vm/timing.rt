//! Images, run and timed.

ghost use Rattle.std.specs.Prelude.{◌≡◌, ◌<◌, ◌≤◌, ◌^◌, [], length, map, IfOk, true};
ghost use Rattle.yr_image.specs.Reading.{image_in};
ghost use Rattle.yr_machine.specs.ImageRun.{FitExternals};
ghost use Rattle.yr_hits.specs.Programs.{HasRoom};
ghost use Rattle.yr_search.specs.Scratches.{IsScratchFor};
ghost use Rattle.yr_machine.specs.Verified.{bytes_of};

use crate::stopwatch::{RUNS, Stopwatch};
use crate::vm::images::{Form, image};
use crate::vm::nothing::Nothing;
use std::alloc::{AllocError, Global};
use std::marker::Brand;
use std::sync::ledger::{Blank, Ledger};
use yr_answer::Matches;
use yr_base::{NoMemory, Steps, Truth};
use yr_machine::VerifiedImage;
use yr_moves::Marks;
use yr_search::{Scratch, search};
use yr_verifier::verify;
use yr_vm::evaluate;

/// The file.
const FILE: &[u8; 3] = b"abc";

// A place for the truth of each rule.
fn no_truths(alloc: Global, image: &VerifiedImage<'_>) -> Result<Vec<Truth>, AllocError>
    ensures { IfOk result (λ truths. length truths.items
        ≡ length (image_in (bytes_of image.now)).rules) }
{
    let rules = image.view().rows(0);
    let truths = vec![in alloc; Truth::No; rules as usize]?;
    Ok(truths)
}

// Whether an image has no external variable.
fn has_no_externals(image: &VerifiedImage<'_>) -> bool
    ensures { result ≡ true → FitExternals (image_in (bytes_of image.now)) [] }
{
    image.view().rows(2) == 0
}

fn matches_of<L: Ledger>(
    blank: Blank,
    alloc: Global,
    image: &VerifiedImage<'_>,
    scratch: &mut Scratch,
) -> Result<Matches, NoMemory>
    requires name { blank.name ≡ L.name }
    requires parts { blank.parts ≡ L.parts }
    requires some { 0 < blank.parts }
    requires scratch { IsScratchFor (bytes_of image.now) scratch.old }
    ensures matches { IfOk result (λ found. length found.lists
        ≡ length (image_in (bytes_of image.now)).strings) }
    ensures scratch { IsScratchFor (bytes_of image.now) scratch.new }
{
    let mut steps = Steps::<L>::begin(blank);
    search(alloc, image, FILE, scratch, &mut steps)
}

// How many rules hold.
fn run<'a, 'm, L: Ledger>(
    blank: Blank,
    alloc: Global,
    image: &'a VerifiedImage<'a>,
    matches: &Matches,
    modules: &'m Nothing,
    marks: &mut Marks,
) -> Result<usize, NoMemory>
    requires name { blank.name ≡ L.name }
    requires parts { blank.parts ≡ L.parts }
    requires some { 0 < blank.parts }
    requires matches { length matches.now.lists ≡ length (image_in (bytes_of image.now)).strings }
    requires externals { FitExternals (image_in (bytes_of image.now)) [] }
    requires room { HasRoom (image_in (bytes_of image.now)) marks.old.room }
    ensures { marks.new.room ≡ marks.old.room }
{
    let mut truths = no_truths(alloc, image)?;
    let mut steps = Steps::<L>::begin(blank);
    evaluate(
        image,
        matches,
        FILE,
        &[],
        modules,
        &mut truths,
        marks,
        &mut steps,
    );
    Ok(truths.iter().filter(|t| **t == Truth::Yes).count())
}

// Rules that hold, and seconds of the fastest run. None where the image is not wellformed, or there
// is no memory.
fn fastest(rt: HostRuntime, bytes: &[u8]) -> anyhow::Result<Option<(usize, f64)>> {
    let alloc = rt.alloc();
    let Ok(image) = verify(bytes) else {
        return Ok(None);
    };
    let Ok(mut scratch) = Scratch::for_image(alloc, &image) else {
        return Ok(None);
    };
    let Ok(matches) = matches_of::<Brand>(Blank::new(1), alloc, &image, &mut scratch) else {
        return Ok(None);
    };
    if !has_no_externals(&image) {
        return Ok(None);
    }
    let modules = Nothing;
    let mut watch = Stopwatch::new();
    let mut hold = 0;
    for _ in 0..RUNS {
        watch.start(rt)?;
        let Ok(yes) = run::<Brand>(
            Blank::new(1),
            alloc,
            &image,
            &matches,
            &modules,
            &mut scratch.marks,
        ) else {
            return Ok(None);
        };
        watch.stop(rt)?;
        hold = yes;
    }
    Ok(Some((hold, watch.least)))
}

/// Prints how many rules hold, or how fast they run: an image has so many rounds of so many rows
/// each.
pub fn time(
    rt: HostRuntime,
    timed: bool,
    name: &str,
    form: Form,
    rounds: u32,
    rows: u32,
) -> anyhow::Result<()> {
    let bytes = image(rt.alloc(), form, rounds)?;
    let Some((yes, least)) = fastest(rt, &bytes)? else {
        println!(rt; "{name}: not wellformed")?;
        return Ok(());
    };
    if timed {
        let all = f64::from(rounds) * f64::from(rows);
        let (thousandths, millions) = (least * 1e3, all / least / 1e6);
        println!(rt;
            "{name}: {rounds} of {rows}, {thousandths:.2} ms, {millions:.1} million a second ({yes} hold)"
        )?;
    } else {
        println!(rt; "{name}: {yes} hold")?;
    }
    Ok(())
}
