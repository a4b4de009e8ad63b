//! The check of names: of rules, namespaces, notes, external variables and strings.

ghost use Rattle.std.specs.Prelude.{◌≡◌, ◌<◌, ◌≤◌, ◌&&◌, true, length, IfSome, IfNone, IsTrue, ◌↔◌};
ghost use Rattle.std.specs.List.{list_all};
ghost use Rattle.yr_base.specs.Bytes.{is_word_start, is_word_byte};
ghost use Rattle.yr_base.specs.Words.{is_word};
ghost use Rattle.yr_image.specs.Image.{namespace_of};
ghost use Rattle.yr_image.specs.Views.{image_of, shown_bytes};
ghost use Rattle.yr_machine.specs.Rows.{row_passes};
ghost use Rattle.yr_machine.specs.Names.{is_name, is_string_name, rule_name, note_name, string_name, NamePasses};
ghost use Rattle.yr_verifier.specs.Firsts.{Finds, Reaches, Checked};
ghost use Rattle.yr_verifier.specs.Named.{is_named};

use crate::counting::{count_externals, count_notes, count_rules, count_strings};
use crate::reading::namespace;
use crate::{repeated, text};
use yr_base::is_word_byte;
use yr_image::{ImageFault, ImageView, RuleRow};

fn is_word_start(b: u8) -> bool
    ensures { result ≡ is_word_start b }
{
    b.is_ascii_alphabetic() || b == b'_'
}

fn are_word_bytes(bytes: &[u8]) -> bool
    ensures { result ≡ list_all is_word_byte bytes.now }
{
    bytes.iter().all(|b| is_word_byte(*b))
}

fn is_word(bytes: &[u8]) -> bool
    ensures { result ≡ is_word bytes.now }
{
    match bytes.split_first() {
        None => false,
        Some((first, rest)) => is_word_start(*first) && are_word_bytes(rest),
    }
}

fn is_name(bytes: &[u8]) -> bool
    ensures { result ≡ is_name bytes.now }
{
    bytes.len() <= 128 && is_word(bytes)
}

fn is_string_name(bytes: &[u8]) -> bool
    ensures { result ≡ is_string_name bytes.now }
{
    bytes.len() <= 128 && are_word_bytes(bytes)
}

fn has_names(view: &ImageView, row: &RuleRow) -> bool
    ensures { result ≡ (is_name (rule_name (image_of view.now) row.now) && is_name (namespace_of (image_of view.now) row.now)) }
{
    is_name(text(view, row.name_place, u32::from(row.name_length))) && is_name(namespace(view, row))
}

// Row k of each section: it has good names, or is not there.

fn rule_is_named(view: &ImageView, k: u32) -> bool
    ensures { result ≡ row_passes (image_of view.now) (λ row. is_name (rule_name (image_of view.now) row) && is_name (namespace_of (image_of view.now) row)) (image_of view.now).rules k }
{
    k >= count_rules(view) || has_names(view, &view.rule(k))
}

fn note_is_named(view: &ImageView, k: u32) -> bool
    ensures { result ≡ row_passes (image_of view.now) (λ row. is_name (note_name (image_of view.now) row)) (image_of view.now).notes k }
{
    if k >= count_notes(view) {
        return true;
    }
    let row = view.note(k);
    is_name(text(view, row.name_place, row.name_length))
}

fn external_is_named(view: &ImageView, k: u32) -> bool
    ensures { result ≡ row_passes (image_of view.now) (λ row. is_name (note_name (image_of view.now) row)) (image_of view.now).externals k }
{
    if k >= count_externals(view) {
        return true;
    }
    let row = view.external(k);
    is_name(text(view, row.name_place, row.name_length))
}

fn string_is_named(view: &ImageView, k: u32) -> bool
    ensures { result ≡ row_passes (image_of view.now) (λ row. is_string_name (string_name (image_of view.now) row)) (image_of view.now).strings k }
{
    if k >= count_strings(view) {
        return true;
    }
    let row = view.string(k);
    is_string_name(text(view, row.name_place, row.name_length))
}

fn is_named(view: &ImageView, section: u32, k: u32) -> bool
    ensures { result ≡ is_named (image_of view.now) section k }
{
    match section {
        0 => rule_is_named(view, k),
        1 => note_is_named(view, k),
        2 => external_is_named(view, k),
        3 => string_is_named(view, k),
        _ => true,
    }
}

// The first row of a section that has a bad name.
fn bad_name(view: &ImageView, section: u32) -> Option<u32>
    requires { section < 4 }
    ensures { Finds (λ k. is_named (image_of view.now) section k ≡ true) result }
{
    for k in 0..view.rows(section) {
        if !is_named(view, section, k) {
            return Some(k);
        }
    }
    None
}

fn number_or(found: Option<u32>, end: u32) -> u32
    ensures some { IfSome found (λ k. result ≡ k) }
    ensures none { IfNone found (result ≡ end) }
{
    match found {
        Some(k) => k,
        None => end,
    }
}

// The first external variable that has a bad name or that of an earlier one.
fn bad_external(view: &ImageView) -> Option<u32>
    ensures { Finds (NamePasses (image_of view.now) 2) result }
{
    let bad = bad_name(view, 2);
    let end = number_or(bad, count_externals(view));
    match repeated(view, end) {
        Some(k) => Some(k),
        None => bad,
    }
}

fn bad_named(view: &ImageView, section: u32) -> Option<u32>
    requires { section < 4 }
    ensures { Finds (NamePasses (image_of view.now) section) result }
{
    if section == 2 {
        bad_external(view)
    } else {
        bad_name(view, section)
    }
}

/// The seventh check.
pub fn check_names(view: &ImageView) -> Result<(), ImageFault>
    requires { Reaches (shown_bytes view.now) 7 0 }
    ensures { Checked (shown_bytes view.now) 8 result }
{
    for section in 0..4 {
        match bad_named(view, section) {
            Some(k) => return Err(ImageFault::Name(section, k)),
            None => {}
        }
    }
    Ok(())
}
