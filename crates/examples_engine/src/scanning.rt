//! Searches and runs of images, as text.

ghost use Rattle.std.specs.Prelude.{◌≡◌, ◌<◌, ◌≤◌, ◌^◌, [], length, map, IfOk, true};
ghost use Rattle.yr_image.specs.Reading.{image_in};
ghost use Rattle.yr_machine.specs.ImageRun.{FitExternals, FitModules};
ghost use Rattle.yr_machine.specs.Verified.{bytes_of};

use std::alloc::{AllocError, Global};
use std::marker::Brand;
use std::sync::ledger::{Blank, Ledger};
use std::test::Fail;
use yr_answer::Matches;
use yr_base::{NoMemory, Steps, Truth};
use yr_machine::VerifiedImage;
use yr_machine::laws::some_programs_are_known;
use yr_modules::{FileModules, modules_of};
use yr_search::{Scratch, search};
use yr_values::Modules;
use yr_verifier::verify;
use yr_vm::evaluate;

/// What an image finds in a file.
#[derive(Drop)]
pub struct Scan {
    pub matches: Matches,
    pub truths: Vec<Truth>,
}

// A place for the truth of each rule.
fn no_truths(alloc: Global, image: &VerifiedImage<'_>) -> Result<Vec<Truth>, AllocError>
    ensures { IfOk result (λ truths. length truths.items ≡ length (image_in (bytes_of image.now)).rules) }
{
    let rules = image.view().rows(0);
    let truths = vec![in alloc; Truth::No; rules as usize]?;
    Ok(truths)
}

// Whether an image has no external variable.
fn has_no_externals(image: &VerifiedImage<'_>) -> bool
    ensures { result ≡ true → FitExternals (image_in (bytes_of image.now)) [] }
{
    image.view().rows(2) == 0
}

fn scan_with<'a, 'm, M: Modules, L: Ledger>(
    alloc: Global,
    blank: Blank,
    image: &'a VerifiedImage<'a>,
    file: &'a [u8],
    modules: &'m M,
) -> Result<Scan, NoMemory>
    requires name { blank.name ≡ L.name }
    requires parts { blank.parts ≡ L.parts }
    requires some { 0 < blank.parts }
    requires small { length file.now ≤ 2 ^ 28 }
    requires externals { FitExternals (image_in (bytes_of image.now)) [] }
    requires modules { FitModules file.now (M.field_of modules.now) (M.call_of modules.now) }
{
    some_programs_are_known();
    let mut steps = Steps::<L>::begin(blank);
    let mut scratch = Scratch::for_image(alloc, image)?;
    let matches = search(alloc, image, file, &mut scratch, &mut steps)?;
    let mut truths = no_truths(alloc, image)?;
    evaluate(
        image,
        &matches,
        file,
        &[],
        modules,
        &mut truths,
        &mut scratch.marks,
        &mut steps,
    );
    Ok(Scan { matches, truths })
}

/// What an image finds in a file; None where it is not wellformed or has external variables, or memory is wanting.
pub fn scanned(alloc: Global, bytes: &[u8], file: &[u8]) -> Option<Scan> {
    let image = verify(bytes).ok()?;
    if file.len() > 1000 || !has_no_externals(&image) {
        return None;
    }
    let modules = modules_of(file);
    scan_with::<FileModules<'_>, Brand>(alloc, Blank::new(1), &image, file, &modules).ok()
}

fn put_list(alloc: Global, text: &mut String, list: &[(u32, u32)]) -> Result<(), Fail> {
    for (offset, size) in list {
        text.push_str(format!(in alloc; " {offset}+{size}")?.as_str())?;
    }
    Ok(())
}

/// The number of hits, and after it each list of matches as offsets and lengths.
pub fn said(alloc: Global, bytes: &[u8], file: &str) -> Result<String, Fail> {
    let mut text = String::new(alloc);
    let Some(found) = scanned(alloc, bytes, file.as_bytes()) else {
        text.push_str("none")?;
        return Ok(text);
    };
    let hits = found.matches.hits();
    text.push_str(format!(in alloc; "{hits}")?.as_str())?;
    for k in 0..found.matches.strings() {
        text.push_str(":")?;
        put_list(alloc, &mut text, found.matches.list((k % 65_536) as u32))?;
    }
    Ok(text)
}

/// The truth of the last rule of an image.
pub fn truth(alloc: Global, bytes: &[u8], file: &[u8]) -> Option<bool> {
    let found = scanned(alloc, bytes, file)?;
    match found.truths.last() {
        Some(Truth::Yes) => Some(true),
        Some(Truth::No) => Some(false),
        None => None,
    }
}
