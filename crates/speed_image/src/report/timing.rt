//! Reports, written and timed.

ghost use Rattle.std.specs.Prelude.{◌≡◌, true, All, IfOk, length};
ghost use Rattle.yr_image.specs.Reading.{image_in};
ghost use Rattle.yr_answer.specs.Found.{IsReadable, items_of};
ghost use Rattle.yr_machine.specs.Verified.{bytes_of};

use crate::report::counter::Counter;
use crate::report::images::{Form, make};
use crate::report::readable::readable;
use crate::stopwatch::{RUNS, Stopwatch};
use std::alloc::{AllocError, Global};
use yr_answer::{Matches, ReportOptions};
use yr_base::{NoMemory, Truth};
use yr_machine::VerifiedImage;
use yr_report::write_report;
use yr_verifier::verify;

/// All lines.
const OPTIONS: ReportOptions = ReportOptions {
    strings: true,
    tags: true,
    meta: true,
    negate: false,
    count: false,
    spaces: true,
};

// Whether the image has so many rules and strings.
fn fits(image: &VerifiedImage<'_>, rules: usize, strings: usize) -> bool
    ensures rules { result ≡ true → rules ≡ length (image_in (bytes_of image.now)).rules }
    ensures strings { result ≡ true → strings ≡ length (image_in (bytes_of image.now)).strings }
{
    let view = image.view();
    if view.rows(0) as usize != rules {
        return false;
    }
    if view.rows(3) as usize != strings {
        return false;
    }
    true
}

// So many matches, 20 bytes apart.
fn matches(alloc: Global, count: u32) -> Result<Vec<(u32, u32)>, AllocError> {
    let mut matches = Vec::new(alloc);
    for k in 0..count {
        matches.push((k.wrapping_mul(20), 4))?;
    }
    Ok(matches)
}

fn lists(alloc: Global, form: Form, size: u32) -> Result<Vec<Vec<(u32, u32)>>, AllocError>
    ensures { IfOk result (λ lists. All IsReadable (items_of lists.items)) }
{
    let mut lists = Vec::new(alloc);
    if let Form::Matches = form {
        lists.push(readable(alloc, &matches(alloc, size)?)?)?;
    }
    Ok(lists)
}

// Writes the report on an image and these matches.
fn write(image: &VerifiedImage<'_>, matches: &Matches, truths: &[Truth]) -> Counter
    requires lists { length matches.now.lists ≡ length (image_in (bytes_of image.now)).strings }
    requires results { length truths.now ≡ length (image_in (bytes_of image.now)).rules }
{
    let mut out = Counter { puts: 0, bytes: 0 };
    let _ = write_report(image, matches, truths, OPTIONS, "t.bin", &mut out);
    out
}

fn found(alloc: Global, lists: &[Vec<(u32, u32)>]) -> Result<Matches, AllocError>
    requires { All IsReadable (items_of lists.now) }
    ensures { IfOk result (λ found. found.lists ≡ items_of lists.now) }
{
    match Matches::from_lists(alloc, lists, 0) {
        Ok(found) => Ok(found),
        Err(NoMemory) => Err(AllocError),
    }
}

/// How many puts and bytes the report of a form and a size is; none where the image is not
/// wellformed.
pub fn said(alloc: Global, form: Form, size: u32) -> anyhow::Result<(u64, u64)> {
    let on = make(alloc, form, size)?;
    let bytes = on.draft.image(alloc)?;
    let lists = lists(alloc, form, size)?;
    let matches = found(alloc, &lists)?;
    match verify(&bytes) {
        Ok(image) if fits(&image, on.truths.len(), lists.len()) => {
            let out = write(&image, &matches, &on.truths);
            Ok((out.puts, out.bytes))
        }
        _ => Ok((0, 0)),
    }
}

// How long the runs took, and what was put.
fn fastest(
    rt: HostRuntime,
    image: &VerifiedImage<'_>,
    matches: &Matches,
    truths: &[Truth],
) -> anyhow::Result<(Stopwatch, Counter)>
    requires lists { length matches.now.lists ≡ length (image_in (bytes_of image.now)).strings }
    requires results { length truths.now ≡ length (image_in (bytes_of image.now)).rules }
{
    let mut watch = Stopwatch::new();
    let mut out = Counter { puts: 0, bytes: 0 };
    for _ in 0..RUNS {
        watch.start(rt)?;
        out = write(image, matches, truths);
        watch.stop(rt)?;
    }
    Ok((watch, out))
}

/// Prints how fast the report of a form and a size is written.
pub fn time(rt: HostRuntime, name: &str, form: Form, size: u32) -> anyhow::Result<()> {
    let alloc = rt.alloc();
    let on = make(alloc, form, size)?;
    let bytes = on.draft.image(alloc)?;
    let lists = lists(alloc, form, size)?;
    let matches = found(alloc, &lists)?;
    match verify(&bytes) {
        Ok(image) if fits(&image, on.truths.len(), lists.len()) => {
            let (watch, out) = fastest(rt, &image, &matches, &on.truths)?;
            let size = std::num::nearest_u64_to_f64(out.bytes);
            let (megabytes, speed, thousandths) = (
                size / 1e6,
                size / watch.least / 1e6,
                watch.least * 1e3,
            );
            println!(rt;
                "{name}: {} puts, {megabytes:.1} MB, {thousandths:.2} ms, {speed:.0} MB/s",
                out.puts
            )?;
        }
        _ => println!(rt; "{name}: not wellformed")?,
    }
    Ok(())
}
