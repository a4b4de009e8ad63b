//! From the name of an image, or from an image that was just compiled, to the report on a target.

ghost use Rattle.std.specs.Prelude.{◌≡◌, ◌≤◌, ℕ, List, None, Option, Some, length, map};
ghost use Rattle.yr_base.specs.Trace.{Entry};
ghost use Rattle.yr_base.specs.Store.{Files};
ghost use Rattle.yr_preserves.specs.Preserves.{externals_in};
ghost use Rattle.yr_preserves.specs.Shape.{IsCompiled};
ghost use Rattle.yr_image.specs.Reading.{image_in};
ghost use Rattle.yr_machine.specs.ImageRun.{FitExternals};
ghost use Rattle.yr_machine.specs.Wellformed.{IsWellformed};
ghost use Rattle.yr_outcome.specs.Answers.{Setting};
ghost use Rattle.yr_outcome.specs.Externals.{first_misfit as plain_misfit, values_with};
ghost use Rattle.yr_outcome.specs.Fits.{seen};
ghost use Rattle.yr_outcome.specs.Front.{IsReading, Reading};
ghost use Rattle.yr_outcome.specs.Outcome.{Ending, Found, image_scanned, run, scanned, with_externals, with_target, with_verified};
ghost use Rattle.yr_outcome.specs.Steps.{FitsAnswer, HasCause};
ghost use Rattle.yr_rules.specs.Rules.{PlainRules};
ghost use Rattle.yr_scan.specs.Reported.{GivesReports};
ghost use Rattle.yr_scan.specs.Scanned.{module_values};
ghost use Rattle.yr_values.specs.Values.{shown};
ghost use Rattle.yr_machine.specs.Verified.{bytes_of};
ghost use Rattle.yr_words.specs.Commands.{ScanImage};
ghost use Rattle.yr_words.specs.Shown.{flags_shown, given_shown};

use crate::are_bytes;
use crate::faults::refuse_image;
use crate::misfits::{first_misfit, refuse_external};
use crate::reporting::report;
use crate::valuing::values;
use std::alloc::Global;
use yr_base::{ReadAnswer, Sink, Store, Value};
use yr_machine::{VerifiedImage, adopt};
use yr_outcome::{Answer, read_target};
use yr_verifier::verify;
use yr_words::{Flags, Given};

/// The most bytes of an image.
const MAX_IMAGE: u32 = 2_147_487_744;

// The report on a file that was read.
fn report_read<'i, 'f, 'v, 'n, O: Sink>(
    alloc: Global,
    image: &'i VerifiedImage<'i>,
    file: &'f [u8],
    values: &[Value<'v>],
    flags: Flags,
    target: &str,
    out: &mut O,
) -> Answer<'n>
    requires small { length file.now ≤ 268435456 }
    requires externals { FitExternals (image_in (bytes_of image.now)) (map shown values.now) }
    ensures fits { (setting : Setting) (files : Files) (told : Option Files) → told ≡ Some files → (trace : Option (List Entry))
        → (answer : Found → List ℕ → Ending) → GivesReports setting files (bytes_of image.now) (map shown values.now) (flags_shown flags) target.now answer
        → FitsAnswer setting (λ found. answer found file.now) result (seen told trace (O.written out.old)) (seen told trace (O.written out.new)) }
    ensures later { O.faults out.old ≤ O.faults out.new }
    ensures cause { (before after : ℕ) → HasCause None result before after (O.faults out.old) (O.faults out.new) }
{
    are_bytes(file);
    report(alloc, image, file, values, flags, target, out)
}

/// Reads a target, and reports what the image finds in it with these values of its externals.
pub fn scan_target<'i, 'v, 'a, F: Store, O: Sink>(
    alloc: Global,
    image: &'i VerifiedImage<'i>,
    values: &[Value<'v>],
    flags: Flags,
    target: &'a str,
    store: &mut F,
    out: &mut O,
) -> Answer<'a>
    requires externals { FitExternals (image_in (bytes_of image.now)) (map shown values.now) }
    ensures fits { (setting : Setting) (files : Files) → F.files store.old ≡ Some files
        → (answer : Found → List ℕ → Ending) → GivesReports setting files (bytes_of image.now) (map shown values.now) (flags_shown flags) target.now answer
        → FitsAnswer setting (λ found. with_target files target.now (answer found)) result
        (seen (F.files store.old) (F.trace store.old) (O.written out.old)) (seen (F.files store.new) (F.trace store.new) (O.written out.new)) }
    ensures files { F.files store.new ≡ F.files store.old }
    ensures later { F.faults store.old ≤ F.faults store.new }
    ensures out_later { O.faults out.old ≤ O.faults out.new }
    ensures cause { HasCause None result (F.faults store.old) (F.faults store.new) (O.faults out.old) (O.faults out.new) }
{
    let mut file = Vec::new(alloc);
    match read_target(alloc, target, store, &mut file) {
        Some(answer) => answer,
        None => report_read(alloc, image, &file, values, flags, target, out),
    }
}

/// The rest of a scan by an image that was compiled from rules, with the rules' own values of their externals.
pub fn scan_compiled<'a, F: Store, O: Sink>(
    alloc: Global,
    bytes: &[u8],
    flags: Flags,
    target: &'a str,
    store: &mut F,
    out: &mut O,
) -> Answer<'a>
    requires wellformed { IsWellformed bytes.now }
    ensures fits { (setting : Setting) → setting.values ≡ module_values → (reading : Reading) (rules : PlainRules) → IsCompiled module_values bytes.now rules
        → (files : Files) → F.files store.old ≡ Some files
        → FitsAnswer setting (λ found. scanned setting reading found files (flags_shown flags) target.now rules) result
        (seen (F.files store.old) (F.trace store.old) (O.written out.old)) (seen (F.files store.new) (F.trace store.new) (O.written out.new)) }
    ensures files { F.files store.new ≡ F.files store.old }
    ensures later { F.faults store.old ≤ F.faults store.new }
    ensures out_later { O.faults out.old ≤ O.faults out.new }
    ensures cause { HasCause None result (F.faults store.old) (F.faults store.new) (O.faults out.old) (O.faults out.new) }
{
    let image = adopt(bytes);
    match values(alloc, &image, &[]) {
        Ok(values) => scan_target(alloc, &image, &values, flags, target, store, out),
        Err(_) => Answer::NoMemory,
    }
}

// The rest of a scan by an image that the words' values fit.
fn scan_valued<'i, 'a, F: Store, O: Sink>(
    alloc: Global,
    image: &'i VerifiedImage<'i>,
    givens: &[Given<'a>],
    flags: Flags,
    target: &'a str,
    store: &mut F,
    out: &mut O,
) -> Answer<'a>
    requires fit { plain_misfit (externals_in (bytes_of image.now)) (map given_shown givens.now) ≡ None }
    ensures fits { (setting : Setting) → setting.values ≡ module_values → (reading : Reading) (files : Files) → F.files store.old ≡ Some files
        → FitsAnswer setting (λ found. image_scanned setting reading found files (flags_shown flags) target.now (bytes_of image.now)
        (values_with (map given_shown givens.now) (externals_in (bytes_of image.now)))) result
        (seen (F.files store.old) (F.trace store.old) (O.written out.old)) (seen (F.files store.new) (F.trace store.new) (O.written out.new)) }
    ensures files { F.files store.new ≡ F.files store.old }
    ensures later { F.faults store.old ≤ F.faults store.new }
    ensures out_later { O.faults out.old ≤ O.faults out.new }
    ensures cause { HasCause None result (F.faults store.old) (F.faults store.new) (O.faults out.old) (O.faults out.new) }
{
    match values(alloc, image, givens) {
        Ok(values) => scan_target(alloc, image, &values, flags, target, store, out),
        Err(_) => Answer::NoMemory,
    }
}

// The rest of a scan by a wellformed image.
fn scan_verified<'i, 'a, F: Store, O: Sink>(
    alloc: Global,
    image: &'i VerifiedImage<'i>,
    givens: &[Given<'a>],
    flags: Flags,
    target: &'a str,
    store: &mut F,
    out: &mut O,
) -> Answer<'a>
    ensures fits { (setting : Setting) → setting.values ≡ module_values → (reading : Reading) (files : Files) → F.files store.old ≡ Some files
        → FitsAnswer setting (λ found. with_externals setting reading found files (flags_shown flags) target.now (bytes_of image.now) (map given_shown givens.now)
        (plain_misfit (externals_in (bytes_of image.now)) (map given_shown givens.now))) result
        (seen (F.files store.old) (F.trace store.old) (O.written out.old)) (seen (F.files store.new) (F.trace store.new) (O.written out.new)) }
    ensures files { F.files store.new ≡ F.files store.old }
    ensures later { F.faults store.old ≤ F.faults store.new }
    ensures out_later { O.faults out.old ≤ O.faults out.new }
    ensures cause { HasCause None result (F.faults store.old) (F.faults store.new) (O.faults out.old) (O.faults out.new) }
{
    match first_misfit(image, givens) {
        Some((name, misfit)) => refuse_external(alloc, name, misfit),
        None => scan_valued(alloc, image, givens, flags, target, store, out),
    }
}

// The rest of a scan by an image that was read.
fn scan_read<'b, 'a, F: Store, O: Sink>(
    alloc: Global,
    name: &'a str,
    bytes: &'b [u8],
    givens: &[Given<'a>],
    flags: Flags,
    target: &'a str,
    store: &mut F,
    out: &mut O,
) -> Answer<'a>
    ensures fits { (setting : Setting) → setting.values ≡ module_values → (reading : Reading) → IsReading reading → (files : Files) → F.files store.old ≡ Some files
        → FitsAnswer setting (λ found. with_verified setting reading found files (flags_shown flags) name.now target.now bytes.now (map given_shown givens.now) (reading.verified bytes.now)) result
        (seen (F.files store.old) (F.trace store.old) (O.written out.old)) (seen (F.files store.new) (F.trace store.new) (O.written out.new)) }
    ensures files { F.files store.new ≡ F.files store.old }
    ensures later { F.faults store.old ≤ F.faults store.new }
    ensures out_later { O.faults out.old ≤ O.faults out.new }
    ensures cause { HasCause None result (F.faults store.old) (F.faults store.new) (O.faults out.old) (O.faults out.new) }
{
    match verify(bytes) {
        Ok(image) => scan_verified(alloc, &image, givens, flags, target, store, out),
        Err(fault) => refuse_image(alloc, name, fault),
    }
}

/// Scans a target by the image of this name, with the values that words give to its externals. Images are taken from
/// anybody: the first check that its bytes fail is the answer.
pub fn scan_by_image<'a, F: Store, O: Sink>(
    alloc: Global,
    flags: Flags,
    image: &'a str,
    target: &'a str,
    givens: &[Given<'a>],
    store: &mut F,
    out: &mut O,
) -> Answer<'a>
    ensures fits { (setting : Setting) → setting.values ≡ module_values → (reading : Reading) → IsReading reading → (files : Files) → F.files store.old ≡ Some files
        → FitsAnswer setting (λ found. run setting reading found files (ScanImage (flags_shown flags) image.now target.now (map given_shown givens.now))) result
        (seen (F.files store.old) (F.trace store.old) (O.written out.old)) (seen (F.files store.new) (F.trace store.new) (O.written out.new)) }
    ensures files { F.files store.new ≡ F.files store.old }
    ensures later { F.faults store.old ≤ F.faults store.new }
    ensures out_later { O.faults out.old ≤ O.faults out.new }
    ensures cause { HasCause None result (F.faults store.old) (F.faults store.new) (O.faults out.old) (O.faults out.new) }
{
    let mut bytes = Vec::new(alloc);
    match store.read_file(alloc, image, MAX_IMAGE, &mut bytes) {
        ReadAnswer::Done => scan_read(alloc, image, &bytes, givens, flags, target, store, out),
        // So many bytes fail at their length at the latest.
        ReadAnswer::Long => scan_read(alloc, image, &bytes, givens, flags, target, store, out),
        ReadAnswer::Failed => Answer::Unread(image),
        ReadAnswer::NoMemory => Answer::NoMemory,
    }
}
