//! The whole report.

ghost use Rattle.std.specs.Prelude.{◌≡◌, ◌≤◌, Bool, [], ◌++◌, length, codes, decimal, IfOk};
ghost use Rattle.std.specs.List.{flat_map};
ghost use Rattle.yr_base.specs.Sink.{Puts};
ghost use Rattle.yr_answer.specs.Report.{on_request, rule_text};
ghost use Rattle.yr_answer.specs.Reported.{reported_of};
ghost use Rattle.yr_answer.specs.Truths.{truths_shown};
ghost use Rattle.yr_image.specs.Reading.{image_in};
ghost use Rattle.yr_image.specs.Views.{image_of};
ghost use Rattle.yr_machine.specs.Listing.{image_report, listed_rule, listed_rules};
ghost use Rattle.yr_report.specs.Adding.{waiting, Adds};
ghost use Rattle.yr_report.specs.Scenes.{lists_of, judged_of, HasRanges, AreShut, IsGoodScene};
ghost use Rattle.yr_machine.specs.Verified.{bytes_of};

use crate::adding::add_all;
use crate::counting::{count_reported, is_reported};
use crate::gate::{shut_namespaces, some_false_global};
use crate::line::{Failed, Line};
use crate::rule::put_rule;
use crate::scene::Scene;
use itoa::Buffer;
use yr_answer::{Matches, ReportOptions};
use yr_base::{PutAnswer, Sink, Truth};
use yr_image::RuleRow;
use yr_machine::VerifiedImage;

// Adds the line with the number of reported rules.
fn add_count<O: Sink>(line: &mut Line, out: &mut O, count: u64) -> Result<(), Failed>
    ensures later { O.faults out.old ≤ O.faults out.new }
    ensures added { Adds (O.written out.old) (O.written out.new) (waiting line.old) (waiting line.new) (decimal count ++ codes "\n") result (O.faults out.old) (O.faults out.new) }
{
    let mut buffer = Buffer::new();
    add_all(line, out, &[buffer.format(count).as_bytes(), b"\n"])
}

// Puts the line with the number of reported rules.
fn put_count<O: Sink>(line: &mut Line, out: &mut O, count: u64) -> Result<(), Failed>
    ensures later { O.faults out.old ≤ O.faults out.new }
    ensures added { Adds (O.written out.old) (O.written out.new) (waiting line.old) (waiting line.new) (decimal count ++ codes "\n") result (O.faults out.old) (O.faults out.new) }
    ensures empty { IfOk result (λ u. waiting line.new ≡ []) }
{
    add_count(line, out, count)?;
    line.end(out)
}

// Puts the lines of a rule, where it is reported.
fn put_reported<O: Sink>(
    scene: &Scene<'_, '_>,
    line: &mut Line,
    out: &mut O,
    rule: &RuleRow,
    reported: bool,
) -> Result<(), Failed>
    requires good { IsGoodScene scene.now }
    requires ranges { HasRanges (image_of scene.now.view) rule.now }
    requires nothing { waiting line.old ≡ [] }
    ensures later { O.faults out.old ≤ O.faults out.new }
    ensures added { Adds (O.written out.old) (O.written out.new) (waiting line.old) (waiting line.new)
        (on_request reported (rule_text (lists_of scene.now) scene.now.options scene.now.target.now (listed_rule (image_of scene.now.view) rule.now)))
        result (O.faults out.old) (O.faults out.new) }
    ensures empty { IfOk result (λ u. waiting line.new ≡ []) }
{
    if reported {
        put_rule(scene, line, out, rule)
    } else {
        Ok(())
    }
}

// Puts the lines of the reported rules.
fn put_rules<O: Sink>(
    scene: &Scene<'_, '_>,
    names: &[&[u8]],
    line: &mut Line,
    out: &mut O,
) -> Result<(), Failed>
    requires good { IsGoodScene scene.now }
    requires shut { AreShut scene.now names.now }
    requires nothing { waiting line.old ≡ [] }
    ensures later { O.faults out.old ≤ O.faults out.new }
    ensures added { Adds (O.written out.old) (O.written out.new) (waiting line.old) (waiting line.new)
        (flat_map (rule_text (lists_of scene.now) scene.now.options scene.now.target.now) (reported_of scene.now.options.negate (listed_rules (image_of scene.now.view)) (truths_shown scene.now.results.now)))
        result (O.faults out.old) (O.faults out.new) }
    ensures empty { IfOk result (λ u. waiting line.new ≡ []) }
{
    for k in 0..scene.results.len() {
        let rule = scene.view.rule(k as u32);
        let reported = is_reported(scene, names, &rule, scene.results[k]);
        put_reported(scene, line, out, &rule, reported)?;
    }
    Ok(())
}

// Puts the report, where these namespaces are shut.
fn put_report_with<O: Sink>(
    scene: &Scene<'_, '_>,
    names: &[&[u8]],
    line: &mut Line,
    out: &mut O,
) -> Result<(), Failed>
    requires good { IsGoodScene scene.now }
    requires shut { AreShut scene.now names.now }
    requires nothing { waiting line.old ≡ [] }
    ensures later { O.faults out.old ≤ O.faults out.new }
    ensures added { Adds (O.written out.old) (O.written out.new) (waiting line.old) (waiting line.new)
        (image_report (image_of scene.now.view) (truths_shown scene.now.results.now) (lists_of scene.now) scene.now.options scene.now.target.now)
        result (O.faults out.old) (O.faults out.new) }
    ensures empty { IfOk result (λ u. waiting line.new ≡ []) }
{
    if scene.options.count {
        return put_count(line, out, count_reported(scene, names));
    }
    put_rules(scene, names, line, out)
}

// Puts the report, with the namespaces that are shut gathered on the stack.
fn put_report_gathered<O: Sink>(
    scene: &Scene<'_, '_>,
    line: &mut Line,
    out: &mut O,
) -> Result<(), Failed>
    requires good { IsGoodScene scene.now }
    requires nothing { waiting line.old ≡ [] }
    ensures later { O.faults out.old ≤ O.faults out.new }
    ensures added { Adds (O.written out.old) (O.written out.new) (waiting line.old) (waiting line.new)
        (image_report (image_of scene.now.view) (truths_shown scene.now.results.now) (lists_of scene.now) scene.now.options scene.now.target.now)
        result (O.faults out.old) (O.faults out.new) }
    ensures empty { IfOk result (λ u. waiting line.new ≡ []) }
{
    let nothing: &[u8] = b"";
    let mut names = [nothing; 65_536];
    let count = shut_namespaces(scene, &mut names);
    put_report_with(scene, &names[..count], line, out)
}

// Puts the report.
fn put_report<O: Sink>(scene: &Scene<'_, '_>, line: &mut Line, out: &mut O) -> Result<(), Failed>
    requires good { IsGoodScene scene.now }
    requires nothing { waiting line.old ≡ [] }
    ensures later { O.faults out.old ≤ O.faults out.new }
    ensures added { Adds (O.written out.old) (O.written out.new) (waiting line.old) (waiting line.new)
        (image_report (image_of scene.now.view) (truths_shown scene.now.results.now) (lists_of scene.now) scene.now.options scene.now.target.now)
        result (O.faults out.old) (O.faults out.new) }
    ensures empty { IfOk result (λ u. waiting line.new ≡ []) }
{
    if some_false_global(scene) {
        put_report_gathered(scene, line, out)
    } else {
        put_report_with(scene, &[], line, out)
    }
}

/// Writes the report on a scan: its target, the matches of the image's strings and the truths of its rules. It takes
/// no memory, and puts nothing more once a put has failed. A line of at most 512 bytes is one put, and no put holds
/// bytes of two lines.
pub fn write_report<O: Sink>(
    image: &VerifiedImage<'_>,
    matches: &Matches,
    results: &[Truth],
    options: ReportOptions,
    target: &str,
    out: &mut O,
) -> PutAnswer
    requires lists { length matches.now.lists ≡ length (image_in (bytes_of image.now)).strings }
    requires results { length results.now ≡ length (image_in (bytes_of image.now)).rules }
    ensures later { O.faults out.old ≤ O.faults out.new }
    ensures report { Puts (O.written out.old) (O.written out.new)
        (image_report (image_in (bytes_of image.now)) (truths_shown results.now) matches.now.lists options target.now)
        result (O.faults out.old) (O.faults out.new) }
{
    let scene = Scene {
        view: image.view(),
        matches,
        results,
        options,
        target: target.as_bytes(),
    };
    let mut line = Line::new();
    match put_report(&scene, &mut line, out) {
        Ok(()) => PutAnswer::Done,
        Err(Failed) => PutAnswer::Failed,
    }
}
