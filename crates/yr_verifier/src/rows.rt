//! The check of rows: pool ranges lie in the pool, fields are in their ranges, and numbers name rows.

ghost use Rattle.std.specs.Prelude.{◌≡◌, ◌+◌, ◌≤◌, ◌<◌, ◌&&◌, ◌||◌, ◌==◌, nat_le, nat_lt, true, false, length, slice_get};
ghost use Rattle.std.specs.Option.{option_map_or};
ghost use Rattle.yr_image.specs.Image.{in_pool};
ghost use Rattle.yr_image.specs.Views.{image_of, shown_bytes};
ghost use Rattle.yr_image.specs.Reading.{zeros_in};
ghost use Rattle.yr_machine.specs.Rows.{end_before, notes_end, strings_end, code_end, ends_sections, is_good_rule, is_good_without_rules, is_good_value, is_good_note, is_good_external, lies_in, is_good_string, is_good_side, is_good_split, is_good_edge, is_good_output, row_passes, index_passes};
ghost use Rattle.yr_verifier.specs.Firsts.{Finds, Reaches, Checked};

use crate::counting::{
    count_code, count_edges, count_externals, count_nodes, count_notes, count_outputs,
    count_programs, count_rules, count_splits, count_strings,
};
use crate::in_pool;
use crate::reading::{edge, output, unused_of};
use yr_image::{EdgeRow, ImageFault, ImageView, NoteRow, RuleRow, SplitRow, StringRow};

/// Where a range ends.
pub fn end_of(first: u32, count: u32) -> u64
    ensures { result ≡ first + count }
{
    u64::from(first) + u64::from(count)
}

// A range of 32 bits in the pool.
fn has_range(view: &ImageView, place: u32, length: u32) -> bool
    ensures { result ≡ in_pool (image_of view.now) place length }
{
    in_pool(view, u64::from(place), u64::from(length))
}

// Where the notes, the strings and the code of the rule before rule k end.

fn notes_before(view: &ImageView, k: u32) -> u64
    requires { k ≤ length (image_of view.now).rules }
    ensures { result ≡ end_before notes_end (image_of view.now).rules k }
{
    if k == 0 {
        return 0;
    }
    let row = view.rule(k - 1);
    end_of(row.first_note, row.notes)
}

fn strings_before(view: &ImageView, k: u32) -> u64
    requires { k ≤ length (image_of view.now).rules }
    ensures { result ≡ end_before strings_end (image_of view.now).rules k }
{
    if k == 0 {
        return 0;
    }
    let row = view.rule(k - 1);
    end_of(row.first_string, row.strings)
}

fn code_before(view: &ImageView, k: u32) -> u64
    requires { k ≤ length (image_of view.now).rules }
    ensures { result ≡ end_before code_end (image_of view.now).rules k }
{
    if k == 0 {
        return 0;
    }
    let row = view.rule(k - 1);
    end_of(row.first_code, row.code_rows)
}

fn ends_sections(view: &ImageView, row: &RuleRow) -> bool
    ensures { result ≡ ends_sections (image_of view.now) row.now }
{
    end_of(row.first_note, row.notes) == u64::from(count_notes(view))
        && (end_of(row.first_string, row.strings) == u64::from(count_strings(view))
            && end_of(row.first_code, row.code_rows) == u64::from(count_code(view)))
}

// Whether rule k has code, and ends with the sections where it is the last one.
fn ends_well(view: &ImageView, k: u32, row: &RuleRow) -> bool
    ensures { result ≡ (nat_lt 0 row.now.code_rows && (nat_lt (k + 1) (length (image_of view.now).rules) || ends_sections (image_of view.now) row.now)) }
{
    row.code_rows > 0
        && (u64::from(k) + 1 < u64::from(count_rules(view)) || ends_sections(view, row))
}

// Whether the ranges of rule k begin where those of the rule before end.
fn follows(view: &ImageView, k: u32, row: &RuleRow) -> bool
    requires { k ≤ length (image_of view.now).rules }
    ensures { result ≡ ((row.now.first_note == end_before notes_end (image_of view.now).rules k)
        && ((row.now.first_string == end_before strings_end (image_of view.now).rules k)
        && (row.now.first_code == end_before code_end (image_of view.now).rules k))) }
{
    u64::from(row.first_note) == notes_before(view, k)
        && (u64::from(row.first_string) == strings_before(view, k)
            && u64::from(row.first_code) == code_before(view, k))
}

fn is_good_rule(view: &ImageView, k: u32, row: &RuleRow) -> bool
    requires { k ≤ length (image_of view.now).rules }
    ensures { result ≡ is_good_rule (image_of view.now) k row.now }
{
    has_range(view, row.name_place, u32::from(row.name_length))
        && has_range(view, row.namespace_place, row.namespace_length)
        && row.flags <= 3
        && follows(view, k, row)
        && ends_well(view, k, row)
}

fn is_good_without_rules(view: &ImageView) -> bool
    ensures { result ≡ is_good_without_rules (image_of view.now) }
{
    count_rules(view) > 0
        || (count_notes(view) == 0 && (count_strings(view) == 0 && count_code(view) == 0))
}

fn is_good_value(view: &ImageView, row: &NoteRow) -> bool
    ensures { result ≡ is_good_value (image_of view.now) row.now }
{
    match row.kind {
        0 => row.value_length == 0 && row.value == 0,
        1 => in_pool(view, row.value, u64::from(row.value_length)),
        2 => row.value_length == 0,
        _ => row.value_length == 0 && row.value <= 1,
    }
}

fn is_good_note(view: &ImageView, row: &NoteRow) -> bool
    ensures { result ≡ is_good_note (image_of view.now) row.now }
{
    has_range(view, row.name_place, row.name_length) && (row.kind <= 3 && is_good_value(view, row))
}

fn is_good_external(view: &ImageView, row: &NoteRow) -> bool
    ensures { result ≡ is_good_external (image_of view.now) row.now }
{
    row.kind >= 1 && is_good_note(view, row)
}

// Whether string k lies in the range of a rule, which must be there.
fn lies_in(view: &ImageView, k: u32, rule: u32) -> bool
    ensures { result ≡ option_map_or (lies_in (image_of view.now) k) (slice_get (image_of view.now).rules rule) false }
{
    if rule < count_rules(view) {
        let row = view.rule(rule);
        row.first_string <= k && u64::from(k) < end_of(row.first_string, row.strings)
    } else {
        false
    }
}

fn is_good_string(view: &ImageView, k: u32, row: &StringRow) -> bool
    ensures { result ≡ is_good_string (image_of view.now) k row.now }
{
    has_range(view, row.name_place, row.name_length)
        && (row.flags <= 3 && lies_in(view, k, row.rule))
}

fn is_good_side(view: &ImageView, kind: u8, place: u32, length: u32) -> bool
    ensures { result ≡ is_good_side (image_of view.now) kind place length }
{
    match kind {
        0 => place == 0 && length == 0,
        1 => has_range(view, place, length),
        2 => place < count_programs(view) && length == 0,
        _ => false,
    }
}

fn is_good_split(view: &ImageView, unused: u64, row: &SplitRow) -> bool
    ensures { result ≡ is_good_split (image_of view.now) unused row.now }
{
    row.string < count_strings(view)
        && (row.border <= 2
            && (is_good_side(view, row.before_kind, row.before_place, row.before_length)
                && (is_good_side(view, row.after_kind, row.after_place, row.after_length)
                    && (row.fold <= 1
                        && ((row.fold == 0 || row.key == 0)
                            && (row.atom_length <= 4 && unused == 0))))))
}

fn is_good_edge(view: &ImageView, row: EdgeRow) -> bool
    ensures { result ≡ is_good_edge (image_of view.now) row }
{
    row.byte <= 255 && row.target < count_nodes(view)
}

// Row k of each section: it passes, or is not there.

fn rule_passes(view: &ImageView, k: u32) -> bool
    ensures { result ≡ row_passes (image_of view.now) (is_good_rule (image_of view.now) k) (image_of view.now).rules k }
{
    k >= count_rules(view) || is_good_rule(view, k, &view.rule(k))
}

fn note_passes(view: &ImageView, k: u32) -> bool
    ensures { result ≡ row_passes (image_of view.now) (is_good_note (image_of view.now)) (image_of view.now).notes k }
{
    k >= count_notes(view) || is_good_note(view, &view.note(k))
}

fn external_passes(view: &ImageView, k: u32) -> bool
    ensures { result ≡ row_passes (image_of view.now) (is_good_external (image_of view.now)) (image_of view.now).externals k }
{
    k >= count_externals(view) || is_good_external(view, &view.external(k))
}

fn string_passes(view: &ImageView, k: u32) -> bool
    ensures { result ≡ row_passes (image_of view.now) (is_good_string (image_of view.now) k) (image_of view.now).strings k }
{
    k >= count_strings(view) || is_good_string(view, k, &view.string(k))
}

fn split_passes(view: &ImageView, k: u32) -> bool
    ensures { result ≡ row_passes (image_of view.now) (is_good_split (image_of view.now) (option_map_or (λ sum. sum) (slice_get (zeros_in (shown_bytes view.now)) k) 0)) (image_of view.now).splits k }
{
    k >= count_splits(view) || is_good_split(view, unused_of(view, k), &view.split(k))
}

fn edge_passes(view: &ImageView, k: u32) -> bool
    ensures { result ≡ row_passes (image_of view.now) (is_good_edge (image_of view.now)) (image_of view.now).edges k }
{
    k >= count_edges(view) || is_good_edge(view, edge(view, k))
}

fn output_passes(view: &ImageView, k: u32) -> bool
    ensures { result ≡ row_passes (image_of view.now) (is_good_output (image_of view.now)) (image_of view.now).outputs k }
{
    k >= count_outputs(view) || output(view, k) < count_splits(view)
}

// Whether row k of a section passes. The first one of the rules does where there are none, and no notes, strings or code.
fn index_passes(view: &ImageView, section: u32, k: u32) -> bool
    ensures { result ≡ index_passes (image_of view.now) (zeros_in (shown_bytes view.now)) section k }
{
    match section {
        0 => rule_passes(view, k) && (k > 0 || is_good_without_rules(view)),
        1 => note_passes(view, k),
        2 => external_passes(view, k),
        3 => string_passes(view, k),
        4 => split_passes(view, k),
        9 => edge_passes(view, k),
        10 => output_passes(view, k),
        _ => true,
    }
}

fn at_least_one(n: u32) -> u32
    ensures enough { n ≤ result }
    ensures some { 0 < result }
{
    if n == 0 { 1 } else { n }
}

// The first row of a section that does not pass.
fn bad_row(view: &ImageView, section: u32) -> Option<u32>
    requires { section < 11 }
    ensures { Finds (λ k. index_passes (image_of view.now) (zeros_in (shown_bytes view.now)) section k ≡ true) result }
{
    let rows = at_least_one(view.rows(section));
    for k in 0..rows {
        if !index_passes(view, section, k) {
            return Some(k);
        }
    }
    None
}

/// The sixth check.
pub fn check_rows(view: &ImageView) -> Result<(), ImageFault>
    requires { Reaches (shown_bytes view.now) 6 0 }
    ensures { Checked (shown_bytes view.now) 7 result }
{
    for section in 0..11 {
        match bad_row(view, section) {
            Some(k) => return Err(ImageFault::Index(section, k)),
            None => {}
        }
    }
    Ok(())
}
