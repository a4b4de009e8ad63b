//! The report of an image on a file, with the line of its hits.

ghost use Rattle.std.specs.Prelude.{◌≡◌, ◌≤◌, ◌^◌, ℕ, None, length, map};
ghost use Rattle.yr_answer.specs.Truths.{truths_shown};
ghost use Rattle.yr_base.specs.Sink.{Puts};
ghost use Rattle.yr_image.specs.Reading.{image_in};
ghost use Rattle.yr_machine.specs.ImageRun.{FitExternals};
ghost use Rattle.yr_machine.specs.Listing.{image_report};
ghost use Rattle.yr_outcome.specs.Answers.{hits_line, options_of};
ghost use Rattle.yr_outcome.specs.Steps.{HasCause};
ghost use Rattle.yr_scan.specs.Reported.{IsReportAnswer, PutsAll};
ghost use Rattle.yr_scan.specs.Scanned.{module_values};
ghost use Rattle.yr_values.specs.Values.{shown};
ghost use Rattle.yr_machine.specs.Verified.{bytes_of};
ghost use Rattle.yr_words.specs.Shown.{flags_shown};

use crate::{Scan, scan_file};
use itoa::Buffer;
use std::alloc::Global;
use yr_answer::ReportOptions;
use yr_base::{PutAnswer, Sink, Value, put_all};
use yr_machine::VerifiedImage;
use yr_outcome::Answer;
use yr_report::write_report;
use yr_words::Flags;

// What flags ask of a report.
fn options(flags: Flags) -> ReportOptions
    ensures { result ≡ options_of (flags_shown flags) }
{
    ReportOptions {
        strings: flags.strings,
        tags: flags.tags,
        meta: flags.meta,
        negate: flags.negate,
        count: flags.count,
        spaces: flags.spaces,
    }
}

// The last line, where it is asked for.
fn put_hits<O: Sink>(flags: Flags, hits: u64, out: &mut O) -> PutAnswer
    ensures later { O.faults out.old ≤ O.faults out.new }
    ensures puts { Puts (O.written out.old) (O.written out.new) (hits_line (flags_shown flags) hits) result (O.faults out.old) (O.faults out.new) }
{
    if !flags.stats {
        return PutAnswer::Done;
    }
    let mut buffer = Buffer::new();
    put_all(out, &[b"hits: ", buffer.format(hits).as_bytes(), b"\n"])
}

// The report on a scan, and the last line.
fn put_scan<'n, O: Sink>(
    image: &VerifiedImage<'_>,
    scan: &Scan,
    flags: Flags,
    target: &str,
    out: &mut O,
) -> Answer<'n>
    requires lists { length scan.now.matches.lists ≡ length (image_in (bytes_of image.now)).strings }
    requires truths { length scan.now.truths.items ≡ length (image_in (bytes_of image.now)).rules }
    ensures puts { PutsAll (image_report (image_in (bytes_of image.now)) (truths_shown scan.now.truths.items) scan.now.matches.lists (options_of (flags_shown flags)) target.now)
        (hits_line (flags_shown flags) scan.now.matches.hits) result (O.written out.old) (O.written out.new) }
    ensures later { O.faults out.old ≤ O.faults out.new }
    ensures cause { (before after : ℕ) → HasCause None result before after (O.faults out.old) (O.faults out.new) }
{
    match write_report(
        image,
        &scan.matches,
        &scan.truths,
        options(flags),
        target,
        out,
    ) {
        PutAnswer::Failed => Answer::Unwritten(None),
        PutAnswer::Done => match put_hits(flags, scan.matches.hits(), out) {
            PutAnswer::Done => Answer::Done,
            PutAnswer::Failed => Answer::Unwritten(None),
        },
    }
}

/// The report of an image on a file of at most 268,435,456 bytes, with these values of its externals, and with
/// `--stats` the number of hits in a last line. All matches and truths are found before the first put.
pub fn report<'i, 'f, 'v, 'n, O: Sink>(
    alloc: Global,
    image: &'i VerifiedImage<'i>,
    file: &'f [u8],
    externals: &[Value<'v>],
    flags: Flags,
    target: &str,
    out: &mut O,
) -> Answer<'n>
    requires small { length file.now ≤ 2 ^ 28 }
    requires externals { FitExternals (image_in (bytes_of image.now)) (map shown externals.now) }
    ensures answer { IsReportAnswer (module_values file.now) (bytes_of image.now) file.now (map shown externals.now) (flags_shown flags) target.now
        result (O.written out.old) (O.written out.new) }
    ensures later { O.faults out.old ≤ O.faults out.new }
    ensures cause { (before after : ℕ) → HasCause None result before after (O.faults out.old) (O.faults out.new) }
{
    match scan_file(alloc, image, file, externals) {
        Ok(scan) => put_scan(image, &scan, flags, target, out),
        Err(_) => Answer::NoMemory,
    }
}
