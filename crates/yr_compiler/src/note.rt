//! Rows of notes.

ghost use Rattle.std.specs.Prelude.{◌≡◌, map, length, IfOk, OnOk};
ghost use Rattle.std.specs.Int.{w64, cast_signed};
ghost use Rattle.yr_syntax.specs.Declaration.{bytes_of, meta_of};
ghost use Rattle.yr_rules.specs.Rules.{rule_of};
ghost use Rattle.yr_values.specs.Values.{Number, Flag, Text};
ghost use Rattle.yr_compiler.specs.Notes.{Tag, Entry, entry_of, notes_of, flag_of};
ghost use Rattle.yr_compiler.specs.Putting.{HasName, PutsNote, PutsNotes};

use yr_base::NoMemory;
use yr_draft::ImageDraft;
use yr_image::NoteRow;
use yr_rules::{CheckedRule, Meta};
use yr_syntax::MetaValue;

/// The length of a text, in four bytes. A longer one has no place in an image.
pub fn length_of(text: &[u8]) -> Result<u32, NoMemory>
    ensures { IfOk result (λ n. n ≡ length text.now) }
{
    u32::try_from(text.len()).map_err(|_| NoMemory)
}

/// 1 for a flag that is set.
pub fn one_if(flag: bool) -> u8
    ensures { result ≡ flag_of flag }
{
    if flag { 1 } else { 0 }
}

/// The bits of a number.
fn bits(n: i64) -> u64
    ensures { cast_signed w64 result ≡ n }
{
    n.cast_unsigned()
}

/// Puts the name of a row with this kind and value.
fn named(draft: &mut ImageDraft, name: &[u8], kind: u32, value: u64) -> Result<NoteRow, NoMemory>
    ensures { IfOk result (λ row. HasName draft.old draft.new name.now kind value row) }
{
    let name_length = length_of(name)?;
    let name_place = draft.put_text(name)?;
    Ok(NoteRow {
        kind,
        name_place,
        name_length,
        value_length: 0,
        value,
    })
}

/// Puts the texts of a tag.
fn tag_row(draft: &mut ImageDraft, name: &[u8]) -> Result<NoteRow, NoMemory>
    ensures { IfOk result (λ row. PutsNote draft.old draft.new (Tag name.now) row) }
{
    let row = named(draft, name, 0, 0)?;
    Ok(row)
}

/// Puts the texts of a name with a number.
pub fn number_row(draft: &mut ImageDraft, name: &[u8], n: i64) -> Result<NoteRow, NoMemory>
    ensures { IfOk result (λ row. PutsNote draft.old draft.new (Entry name.now (Number n)) row) }
{
    let row = named(draft, name, 2, bits(n))?;
    Ok(row)
}

/// Puts the texts of a name with a flag.
pub fn flag_row(draft: &mut ImageDraft, name: &[u8], b: bool) -> Result<NoteRow, NoMemory>
    ensures { IfOk result (λ row. PutsNote draft.old draft.new (Entry name.now (Flag b)) row) }
{
    let row = named(draft, name, 3, u64::from(one_if(b)))?;
    Ok(row)
}

/// Puts the texts of a name with a text.
pub fn text_row(draft: &mut ImageDraft, name: &[u8], text: &[u8]) -> Result<NoteRow, NoMemory>
    ensures { IfOk result (λ row. PutsNote draft.old draft.new (Entry name.now (Text text.now)) row) }
{
    let value_length = length_of(text)?;
    let place = draft.put_text(text)?;
    let row = named(draft, name, 1, u64::from(place))?;
    Ok(NoteRow {
        value_length,
        ..row
    })
}

/// Puts the texts of an entry of meta.
fn meta_row(draft: &mut ImageDraft, m: &Meta) -> Result<NoteRow, NoMemory>
    ensures { IfOk result (λ row. PutsNote draft.old draft.new (entry_of (meta_of m.now)) row) }
{
    match &m.value {
        MetaValue::Text(text) => {
            let row = text_row(draft, &m.key, text)?;
            Ok(row)
        }
        MetaValue::Number(n) => {
            let row = number_row(draft, &m.key, *n)?;
            Ok(row)
        }
        MetaValue::Flag(b) => {
            let row = flag_row(draft, &m.key, *b)?;
            Ok(row)
        }
    }
}

/// Puts tags.
fn put_tags(draft: &mut ImageDraft, tags: &[Vec<u8>]) -> Result<(), NoMemory>
    ensures { OnOk result (PutsNotes draft.old draft.new (map Tag (map bytes_of tags.now))) }
{
    for tag in tags {
        let row = tag_row(draft, tag)?;
        draft.put_note(row)?;
    }
    Ok(())
}

/// Puts entries of meta.
fn put_meta(draft: &mut ImageDraft, meta: &[Meta]) -> Result<(), NoMemory>
    ensures { OnOk result (PutsNotes draft.old draft.new (map entry_of (map meta_of meta.now))) }
{
    for m in meta {
        let row = meta_row(draft, m)?;
        draft.put_note(row)?;
    }
    Ok(())
}

/// Puts the notes of a rule, its tags and then its meta, and tells how many there are.
pub fn put_notes(draft: &mut ImageDraft, rule: &CheckedRule) -> Result<u32, NoMemory>
    ensures notes { OnOk result (PutsNotes draft.old draft.new (notes_of (rule_of rule.now))) }
    ensures count { IfOk result (λ count. count ≡ length (notes_of (rule_of rule.now))) }
{
    let count = u32::try_from(rule.tags.len() + rule.meta.len()).map_err(|_| NoMemory)?;
    put_tags(draft, &rule.tags)?;
    put_meta(draft, &rule.meta)?;
    Ok(count)
}
