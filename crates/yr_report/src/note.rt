//! The tags and the meta of a rule, in brackets.

ghost use Rattle.std.specs.Prelude.{◌≡◌, ◌≤◌, ◌<◌, ◌+◌, ◌^◌, ◌++◌, ◌||◌, false, length, filter, codes};
ghost use Rattle.std.specs.Fmt.{signed_decimal};
ghost use Rattle.yr_answer.specs.Listing.{MetaFlag};
ghost use Rattle.yr_answer.specs.Report.{on_request, bracketed, entry_text, value_text};
ghost use Rattle.yr_image.specs.Views.{image_of};
ghost use Rattle.yr_machine.specs.Listing.{meta_value, listed_meta, listed_rule, notes_of};
ghost use Rattle.yr_machine.specs.Rows.{notes_end};
ghost use Rattle.yr_report.specs.Adding.{waiting, Adds};
ghost use Rattle.yr_report.specs.Entries.{is_asked, note_text, entry, entries};

use crate::adding::add_all;
use crate::line::{Failed, Line};
use crate::quoting::add_quoted;
use crate::text::{note_name, text};
use itoa::Buffer;
use yr_base::Sink;
use yr_image::{ImageView, NoteRow, RuleRow};

fn add_number<O: Sink>(line: &mut Line, out: &mut O, n: i64) -> Result<(), Failed>
    ensures later { O.faults out.old ≤ O.faults out.new }
    ensures added { Adds (O.written out.old) (O.written out.new) (waiting line.old) (waiting line.new) (signed_decimal n) result (O.faults out.old) (O.faults out.new) }
{
    let mut buffer = Buffer::new();
    line.add(out, buffer.format(n).as_bytes())
}

fn flag_text(flag: bool) -> &'static [u8]
    ensures { result.now ≡ value_text (MetaFlag flag) }
{
    if flag { b"true" } else { b"false" }
}

// Adds the value of an entry of meta.
fn add_value<O: Sink>(
    view: &ImageView<'_>,
    line: &mut Line,
    out: &mut O,
    note: &NoteRow,
) -> Result<(), Failed>
    ensures later { O.faults out.old ≤ O.faults out.new }
    ensures added { Adds (O.written out.old) (O.written out.new) (waiting line.old) (waiting line.new) (value_text (meta_value (image_of view.now) note.now)) result (O.faults out.old) (O.faults out.new) }
{
    match note.kind {
        1 => add_quoted(line, out, text(view, note.value, note.value_length)),
        2 => add_number(line, out, note.value.cast_signed()),
        _ => line.add(out, flag_text(note.value == 1)),
    }
}

// Adds `KEY=VALUE`.
fn add_meta<O: Sink>(
    view: &ImageView<'_>,
    line: &mut Line,
    out: &mut O,
    note: &NoteRow,
) -> Result<(), Failed>
    ensures later { O.faults out.old ≤ O.faults out.new }
    ensures added { Adds (O.written out.old) (O.written out.new) (waiting line.old) (waiting line.new) (entry_text (listed_meta (image_of view.now) note.now)) result (O.faults out.old) (O.faults out.new) }
{
    add_all(line, out, &[note_name(view, note), b"="])?;
    add_value(view, line, out, note)
}

// Adds a tag or an entry of meta.
fn add_note<O: Sink>(
    view: &ImageView<'_>,
    line: &mut Line,
    out: &mut O,
    note: &NoteRow,
    tags: bool,
) -> Result<(), Failed>
    ensures later { O.faults out.old ≤ O.faults out.new }
    ensures added { Adds (O.written out.old) (O.written out.new) (waiting line.old) (waiting line.new) (note_text (image_of view.now) tags note.now) result (O.faults out.old) (O.faults out.new) }
{
    if tags {
        line.add(out, note_name(view, note))
    } else {
        add_meta(view, line, out, note)
    }
}

fn is_asked(note: &NoteRow, tags: bool) -> bool
    ensures { result ≡ is_asked tags note.now }
{
    if tags { note.kind == 0 } else { note.kind != 0 }
}

fn either(a: bool, b: bool) -> bool
    ensures { result ≡ a || b }
{
    if a { true } else { b }
}

// Adds a comma where an entry stands before.
fn add_comma<O: Sink>(line: &mut Line, out: &mut O, some: bool) -> Result<(), Failed>
    ensures later { O.faults out.old ≤ O.faults out.new }
    ensures added { Adds (O.written out.old) (O.written out.new) (waiting line.old) (waiting line.new) (on_request some (codes ",")) result (O.faults out.old) (O.faults out.new) }
{
    if some { line.add(out, b",") } else { Ok(()) }
}

// Adds a note, with a comma before it where another stands before.
fn add_next<O: Sink>(
    view: &ImageView<'_>,
    line: &mut Line,
    out: &mut O,
    note: &NoteRow,
    tags: bool,
    some: bool,
) -> Result<(), Failed>
    ensures later { O.faults out.old ≤ O.faults out.new }
    ensures added { Adds (O.written out.old) (O.written out.new) (waiting line.old) (waiting line.new) (on_request some (codes ",") ++ note_text (image_of view.now) tags note.now) result (O.faults out.old) (O.faults out.new) }
{
    add_comma(line, out, some)?;
    add_note(view, line, out, note, tags)
}

// Adds a note where it is asked for; `some` says that another stands before it.
fn add_entry<O: Sink>(
    view: &ImageView<'_>,
    line: &mut Line,
    out: &mut O,
    note: &NoteRow,
    tags: bool,
    some: bool,
) -> Result<(), Failed>
    ensures later { O.faults out.old ≤ O.faults out.new }
    ensures added { Adds (O.written out.old) (O.written out.new) (waiting line.old) (waiting line.new) (entry (is_asked tags) (note_text (image_of view.now) tags) some note.now) result (O.faults out.old) (O.faults out.new) }
{
    if is_asked(note, tags) {
        add_next(view, line, out, note, tags, some)
    } else {
        Ok(())
    }
}

// Adds the tags of a rule, or its meta, with commas between them.
fn add_entries<O: Sink>(
    view: &ImageView<'_>,
    line: &mut Line,
    out: &mut O,
    rule: &RuleRow,
    tags: bool,
) -> Result<(), Failed>
    requires within { notes_end rule.now ≤ length (image_of view.now).notes }
    requires small { length (image_of view.now).notes < 2 ^ 32 }
    ensures later { O.faults out.old ≤ O.faults out.new }
    ensures added { Adds (O.written out.old) (O.written out.new) (waiting line.old) (waiting line.new) (entries (is_asked tags) (note_text (image_of view.now) tags) false (notes_of (image_of view.now) rule.now)) result (O.faults out.old) (O.faults out.new) }
{
    let mut some = false;
    for k in rule.first_note..rule.first_note + rule.notes {
        let note = view.note(k);
        add_entry(view, line, out, &note, tags, some)?;
        some = either(some, is_asked(&note, tags));
    }
    Ok(())
}

// Adds the tags of a rule, or its meta, in brackets.
fn add_notes<O: Sink>(
    view: &ImageView<'_>,
    line: &mut Line,
    out: &mut O,
    rule: &RuleRow,
    tags: bool,
) -> Result<(), Failed>
    requires within { notes_end rule.now ≤ length (image_of view.now).notes }
    requires small { length (image_of view.now).notes < 2 ^ 32 }
    ensures later { O.faults out.old ≤ O.faults out.new }
    ensures added { Adds (O.written out.old) (O.written out.new) (waiting line.old) (waiting line.new) (bracketed (note_text (image_of view.now) tags) (filter (is_asked tags) (notes_of (image_of view.now) rule.now))) result (O.faults out.old) (O.faults out.new) }
{
    line.add(out, b" [")?;
    add_entries(view, line, out, rule, tags)?;
    line.add(out, b"]")
}

/// Adds the tags of a rule in brackets, where they are asked for.
pub fn add_tags<O: Sink>(
    view: &ImageView<'_>,
    line: &mut Line,
    out: &mut O,
    rule: &RuleRow,
    asked: bool,
) -> Result<(), Failed>
    requires within { notes_end rule.now ≤ length (image_of view.now).notes }
    requires small { length (image_of view.now).notes < 2 ^ 32 }
    ensures later { O.faults out.old ≤ O.faults out.new }
    ensures added { Adds (O.written out.old) (O.written out.new) (waiting line.old) (waiting line.new) (on_request asked (bracketed (λ tag. tag) (listed_rule (image_of view.now) rule.now).tags)) result (O.faults out.old) (O.faults out.new) }
{
    if asked {
        add_notes(view, line, out, rule, true)
    } else {
        Ok(())
    }
}

/// Adds the meta of a rule in brackets, where it is asked for.
pub fn add_all_meta<O: Sink>(
    view: &ImageView<'_>,
    line: &mut Line,
    out: &mut O,
    rule: &RuleRow,
    asked: bool,
) -> Result<(), Failed>
    requires within { notes_end rule.now ≤ length (image_of view.now).notes }
    requires small { length (image_of view.now).notes < 2 ^ 32 }
    ensures later { O.faults out.old ≤ O.faults out.new }
    ensures added { Adds (O.written out.old) (O.written out.new) (waiting line.old) (waiting line.new) (on_request asked (bracketed entry_text (listed_rule (image_of view.now) rule.now).meta)) result (O.faults out.old) (O.faults out.new) }
{
    if asked {
        add_notes(view, line, out, rule, false)
    } else {
        Ok(())
    }
}
