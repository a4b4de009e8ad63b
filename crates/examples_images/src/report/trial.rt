//! Reports on the sample.

ghost use Rattle.std.specs.Prelude.{◌≡◌, true, All, IfOk, length};
ghost use Rattle.yr_image.specs.Reading.{image_in};
ghost use Rattle.yr_answer.specs.Found.{IsReadable, items_of};
ghost use Rattle.yr_machine.specs.Verified.{bytes_of};

use crate::report::readable::readable;
use crate::report::sample::{LISTS, sample};
use std::alloc::{AllocError, Global};
use yr_answer::{Matches, ReportOptions};
use yr_base::{NoMemory, PutAnswer, Sink, Truth};
use yr_machine::VerifiedImage;
use yr_report::write_report;
use yr_verifier::verify;

// The options of these letters.
fn options(letters: &str) -> ReportOptions {
    let is_given = |letter: u8| letters.as_bytes().contains(&letter);
    ReportOptions {
        strings: is_given(b's'),
        tags: is_given(b'g'),
        meta: is_given(b'm'),
        negate: is_given(b'n'),
        count: is_given(b'c'),
        spaces: is_given(b'e'),
    }
}

// A truth for each digit.
fn truths(alloc: Global, digits: &str) -> Result<Vec<Truth>, AllocError> {
    let mut truths = Vec::new(alloc);
    for digit in digits.as_bytes() {
        truths.push(if *digit == b'1' {
            Truth::Yes
        } else {
            Truth::No
        })?;
    }
    Ok(truths)
}

fn lists(alloc: Global) -> Result<Vec<Vec<(u32, u32)>>, AllocError>
    ensures { IfOk result (λ lists. All IsReadable (items_of lists.items)) }
{
    let mut lists = Vec::new(alloc);
    for list in LISTS {
        lists.push(readable(alloc, list)?)?;
    }
    Ok(lists)
}

// Whether the image has so many rules and strings.
fn fits(image: &VerifiedImage<'_>, rules: usize, strings: usize) -> bool
    ensures rules { result ≡ true → rules ≡ length (image_in (bytes_of image.now)).rules }
    ensures strings { result ≡ true → strings ≡ length (image_in (bytes_of image.now)).strings }
{
    let view = image.view();
    if view.rows(0) as usize != rules {
        return false;
    }
    if view.rows(3) as usize != strings {
        return false;
    }
    true
}

/// The report on the sample with the options of these letters, where the rules have these truths.
pub fn sample_report<O: Sink>(
    alloc: Global,
    letters: &str,
    digits: &str,
    target: &str,
    out: &mut O,
) -> Result<Option<PutAnswer>, NoMemory> {
    let bytes = sample(alloc)?;
    let truths = truths(alloc, digits)?;
    let lists = lists(alloc)?;
    let matches = Matches::from_lists(alloc, &lists, 0)?;
    match verify(&bytes) {
        Ok(image) if fits(&image, truths.len(), lists.len()) => Ok(Some(write_report(
            &image,
            &matches,
            &truths,
            options(letters),
            target,
            out,
        ))),
        _ => Ok(None),
    }
}
