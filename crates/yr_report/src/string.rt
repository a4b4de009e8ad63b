//! The strings of a rule.

ghost use Rattle.std.specs.Prelude.{◌≡◌, ◌≤◌, ◌<◌, ◌+◌, ◌^◌, Some, [], length, slice_get, IfOk};
ghost use Rattle.std.specs.List.{flat_map};
ghost use Rattle.yr_answer.specs.Report.{string_lines};
ghost use Rattle.yr_image.specs.declared.rows.StringRow.{StringRow};
ghost use Rattle.yr_image.specs.Views.{image_of};
ghost use Rattle.yr_machine.specs.Listing.{has_flag, listed_rule};
ghost use Rattle.yr_machine.specs.Names.{string_name};
ghost use Rattle.yr_machine.specs.Rows.{strings_end};
ghost use Rattle.yr_report.specs.Adding.{waiting, Adds};
ghost use Rattle.yr_report.specs.Scenes.{lists_of, IsGoodScene};

use crate::gate::has_flag;
use crate::line::{Failed, Line};
use crate::matching::put_matches;
use crate::scene::Scene;
use crate::text::string_name;
use yr_base::Sink;
use yr_image::RuleRow;

// Puts the lines of the matches of string k, unless it is private.
fn put_string<O: Sink>(
    scene: &Scene<'_, '_>,
    line: &mut Line,
    out: &mut O,
    k: u32,
) -> Result<(), Failed>
    requires good { IsGoodScene scene.now }
    requires string { k < length (image_of scene.now.view).strings }
    requires nothing { waiting line.old ≡ [] }
    ensures later { O.faults out.old ≤ O.faults out.new }
    ensures added { (row : StringRow) → slice_get (image_of scene.now.view).strings k ≡ Some row →
        Adds (O.written out.old) (O.written out.new) (waiting line.old) (waiting line.new)
        (string_lines (lists_of scene.now) (record { number = k; name = string_name (image_of scene.now.view) row; hidden = has_flag 1 row.flags }))
        result (O.faults out.old) (O.faults out.new) }
    ensures empty { IfOk result (λ u. waiting line.new ≡ []) }
{
    let row = scene.view.string(k);
    if has_flag(row.flags, 1) {
        return Ok(());
    }
    put_matches(
        line,
        out,
        string_name(&scene.view, &row),
        scene.matches.list(k),
    )
}

/// Puts the lines of the matches of a rule's strings, in the order of the strings.
pub fn put_strings<O: Sink>(
    scene: &Scene<'_, '_>,
    line: &mut Line,
    out: &mut O,
    rule: &RuleRow,
) -> Result<(), Failed>
    requires good { IsGoodScene scene.now }
    requires within { strings_end rule.now ≤ length (image_of scene.now.view).strings }
    requires small { length (image_of scene.now.view).strings < 2 ^ 32 }
    requires nothing { waiting line.old ≡ [] }
    ensures later { O.faults out.old ≤ O.faults out.new }
    ensures added { Adds (O.written out.old) (O.written out.new) (waiting line.old) (waiting line.new)
        (flat_map (string_lines (lists_of scene.now)) (listed_rule (image_of scene.now.view) rule.now).strings)
        result (O.faults out.old) (O.faults out.new) }
    ensures empty { IfOk result (λ u. waiting line.new ≡ []) }
{
    for k in rule.first_string..rule.first_string + rule.strings {
        put_string(scene, line, out, k)?;
    }
    Ok(())
}
