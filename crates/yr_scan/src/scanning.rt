//! The search of a file for an image's strings, and then the run of its rules.

ghost use Rattle.std.specs.Prelude.{◌≡◌, ◌≤◌, ◌<◌, ◌^◌, All, length, map, IfOk};
ghost use Rattle.yr_answer.specs.Truths.{truths_shown};
ghost use Rattle.yr_image.specs.Reading.{image_in};
ghost use Rattle.yr_machine.specs.ImageRun.{FitExternals, FitModules};
ghost use Rattle.yr_scan.specs.Scanned.{IsScan, IsScanWith};
ghost use Rattle.yr_values.specs.Values.{shown};
ghost use Rattle.yr_machine.specs.Verified.{bytes_of};

use std::alloc::{AllocError, Global};
use std::marker::Brand;
use std::sync::ledger::{Blank, Ledger};
use yr_answer::Matches;
use yr_base::{NoMemory, Steps, Truth, Value};
use yr_machine::VerifiedImage;
use yr_machine::laws::some_programs_are_known;
use yr_modules::{FileModules, modules_of};
use yr_search::{Scratch, search};
use yr_values::Modules;
use yr_vm::evaluate;

/// What an image finds in a file.
#[derive(Drop)]
pub struct Scan {
    /// The matches of the image's strings, and the number of its hits.
    pub matches: Matches,
    /// The truths of its rules, in their order.
    pub truths: Vec<Truth>,
}

// A place for the truth of each rule.
fn no_truths(alloc: Global, image: &VerifiedImage<'_>) -> Result<Vec<Truth>, AllocError>
    ensures { IfOk result (λ truths. length truths.items ≡ length (image_in (bytes_of image.now)).rules) }
{
    let rules = image.view().rows(0);
    let truths = vec![in alloc; Truth::No; rules as usize]?;
    Ok(truths)
}

// The same for any values of modules, with a counter of steps that nobody reads.
fn scan_counted<'a, 'm, M: Modules, L: Ledger>(
    alloc: Global,
    blank: Blank,
    image: &'a VerifiedImage<'a>,
    file: &'a [u8],
    externals: &[Value<'a>],
    modules: &'m M,
) -> Result<Scan, NoMemory>
    requires name { blank.name ≡ L.name }
    requires parts { blank.parts ≡ L.parts }
    requires some { 0 < blank.parts }
    requires small { length file.now ≤ 2 ^ 28 }
    requires externals { FitExternals (image_in (bytes_of image.now)) (map shown externals.now) }
    requires modules { FitModules file.now (M.field_of modules.now) (M.call_of modules.now) }
    ensures { IfOk result (λ scan. IsScanWith (M.field_of modules.now) (M.call_of modules.now) (bytes_of image.now) file.now (map shown externals.now)
        scan.matches.lists scan.matches.hits (truths_shown scan.truths.items)) }
{
    some_programs_are_known();
    let mut steps = Steps::<L>::begin(blank);
    let mut scratch = Scratch::for_image(alloc, image)?;
    let matches = search(alloc, image, file, &mut scratch, &mut steps)?;
    let mut truths = no_truths(alloc, image)?;
    evaluate(
        image,
        &matches,
        file,
        externals,
        modules,
        &mut truths,
        &mut scratch.marks,
        &mut steps,
    );
    Ok(Scan { matches, truths })
}

/// What an image finds in a file of at most 268,435,456 bytes, with these values of its externals, one for each in
/// their order and of its kind. All of it stands before anything is written.
pub fn scan_file<'i, 'f, 'v>(
    alloc: Global,
    image: &'i VerifiedImage<'i>,
    file: &'f [u8],
    externals: &[Value<'v>],
) -> Result<Scan, NoMemory>
    requires small { length file.now ≤ 2 ^ 28 }
    requires externals { FitExternals (image_in (bytes_of image.now)) (map shown externals.now) }
    ensures { IfOk result (λ scan. IsScan (bytes_of image.now) file.now (map shown externals.now) scan.matches.lists scan.matches.hits (truths_shown scan.truths.items)) }
{
    let modules = modules_of(file);
    scan_counted::<FileModules<'_>, Brand>(alloc, Blank::new(1), image, file, externals, &modules)
}
