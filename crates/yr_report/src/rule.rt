//! The lines of a rule.

ghost use Rattle.std.specs.Prelude.{◌≡◌, ◌≤◌, ◌++◌, [], codes, IfOk};
ghost use Rattle.std.specs.List.{flat_map};
ghost use Rattle.yr_answer.specs.Report.{on_request, string_lines, rule_line, rule_text};
ghost use Rattle.yr_image.specs.Image.{namespace_of};
ghost use Rattle.yr_image.specs.Views.{image_of};
ghost use Rattle.yr_machine.specs.Listing.{listed_rule};
ghost use Rattle.yr_report.specs.Adding.{waiting, Adds};
ghost use Rattle.yr_report.specs.Scenes.{lists_of, HasRanges, IsGoodScene};

use crate::adding::add_all;
use crate::line::{Failed, Line};
use crate::note::{add_all_meta, add_tags};
use crate::scene::Scene;
use crate::string::put_strings;
use crate::text::{namespace, rule_name};
use yr_base::Sink;
use yr_image::RuleRow;

// Adds the namespace of a rule and `:`.
fn add_namespace<O: Sink>(
    scene: &Scene<'_, '_>,
    line: &mut Line,
    out: &mut O,
    rule: &RuleRow,
) -> Result<(), Failed>
    ensures later { O.faults out.old ≤ O.faults out.new }
    ensures added { Adds (O.written out.old) (O.written out.new) (waiting line.old) (waiting line.new)
        (namespace_of (image_of scene.now.view) rule.now ++ codes ":") result (O.faults out.old) (O.faults out.new) }
{
    add_all(line, out, &[namespace(&scene.view, rule), b":"])
}

// Adds the namespace of a rule, where it is asked for.
fn add_asked_namespace<O: Sink>(
    scene: &Scene<'_, '_>,
    line: &mut Line,
    out: &mut O,
    rule: &RuleRow,
) -> Result<(), Failed>
    ensures later { O.faults out.old ≤ O.faults out.new }
    ensures added { Adds (O.written out.old) (O.written out.new) (waiting line.old) (waiting line.new)
        (on_request scene.now.options.spaces (namespace_of (image_of scene.now.view) rule.now ++ codes ":"))
        result (O.faults out.old) (O.faults out.new) }
{
    if scene.options.spaces {
        add_namespace(scene, line, out, rule)
    } else {
        Ok(())
    }
}

// Adds the line of a rule.
fn add_rule_line<O: Sink>(
    scene: &Scene<'_, '_>,
    line: &mut Line,
    out: &mut O,
    rule: &RuleRow,
) -> Result<(), Failed>
    requires ranges { HasRanges (image_of scene.now.view) rule.now }
    ensures later { O.faults out.old ≤ O.faults out.new }
    ensures added { Adds (O.written out.old) (O.written out.new) (waiting line.old) (waiting line.new)
        (rule_line scene.now.options scene.now.target.now (listed_rule (image_of scene.now.view) rule.now))
        result (O.faults out.old) (O.faults out.new) }
{
    let view = &scene.view;
    add_asked_namespace(scene, line, out, rule)?;
    line.add(out, rule_name(view, rule))?;
    add_tags(view, line, out, rule, scene.options.tags)?;
    add_all_meta(view, line, out, rule, scene.options.meta)?;
    add_all(line, out, &[b" ", scene.target, b"\n"])
}

// Puts the line of a rule, where nothing waits.
fn put_rule_line<O: Sink>(
    scene: &Scene<'_, '_>,
    line: &mut Line,
    out: &mut O,
    rule: &RuleRow,
) -> Result<(), Failed>
    requires ranges { HasRanges (image_of scene.now.view) rule.now }
    ensures later { O.faults out.old ≤ O.faults out.new }
    ensures added { Adds (O.written out.old) (O.written out.new) (waiting line.old) (waiting line.new)
        (rule_line scene.now.options scene.now.target.now (listed_rule (image_of scene.now.view) rule.now))
        result (O.faults out.old) (O.faults out.new) }
    ensures empty { IfOk result (λ u. waiting line.new ≡ []) }
{
    add_rule_line(scene, line, out, rule)?;
    line.end(out)
}

// Puts the lines of the strings of a rule, where they are asked for.
fn put_asked_strings<O: Sink>(
    scene: &Scene<'_, '_>,
    line: &mut Line,
    out: &mut O,
    rule: &RuleRow,
) -> Result<(), Failed>
    requires good { IsGoodScene scene.now }
    requires ranges { HasRanges (image_of scene.now.view) rule.now }
    requires nothing { waiting line.old ≡ [] }
    ensures later { O.faults out.old ≤ O.faults out.new }
    ensures added { Adds (O.written out.old) (O.written out.new) (waiting line.old) (waiting line.new)
        (on_request scene.now.options.strings (flat_map (string_lines (lists_of scene.now)) (listed_rule (image_of scene.now.view) rule.now).strings))
        result (O.faults out.old) (O.faults out.new) }
    ensures empty { IfOk result (λ u. waiting line.new ≡ []) }
{
    if scene.options.strings {
        put_strings(scene, line, out, rule)
    } else {
        Ok(())
    }
}

/// Puts the lines of a rule and of its strings, where nothing waits.
pub fn put_rule<O: Sink>(
    scene: &Scene<'_, '_>,
    line: &mut Line,
    out: &mut O,
    rule: &RuleRow,
) -> Result<(), Failed>
    requires good { IsGoodScene scene.now }
    requires ranges { HasRanges (image_of scene.now.view) rule.now }
    ensures later { O.faults out.old ≤ O.faults out.new }
    ensures added { Adds (O.written out.old) (O.written out.new) (waiting line.old) (waiting line.new)
        (rule_text (lists_of scene.now) scene.now.options scene.now.target.now (listed_rule (image_of scene.now.view) rule.now))
        result (O.faults out.old) (O.faults out.new) }
    ensures empty { IfOk result (λ u. waiting line.new ≡ []) }
{
    put_rule_line(scene, line, out, rule)?;
    put_asked_strings(scene, line, out, rule)
}
