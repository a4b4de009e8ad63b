//! Texts of an image's pool.

ghost use Rattle.std.specs.Prelude.{◌≡◌, min};
ghost use Rattle.yr_image.specs.Image.{pool_text, namespace_of};
ghost use Rattle.yr_image.specs.Views.{image_of};
ghost use Rattle.yr_machine.specs.Names.{rule_name, note_name, string_name};

use yr_image::{ImageView, NoteRow, RuleRow, StringRow};

fn least(a: usize, b: usize) -> usize
    ensures { result ≡ min a b }
{
    if a < b { a } else { b }
}

/// The bytes of a range of the pool that are there.
pub fn text<'a>(view: &ImageView<'a>, place: u64, length: u32) -> &'a [u8]
    ensures { result.now ≡ pool_text (image_of view.now) place length }
{
    let pool = view.bytes_of(13);
    let start = least(place as usize, pool.len());
    let count = least(length as usize, pool.len() - start);
    &pool[start..start + count]
}

/// The name of a rule.
pub fn rule_name<'a>(view: &ImageView<'a>, rule: &RuleRow) -> &'a [u8]
    ensures { result.now ≡ rule_name (image_of view.now) rule.now }
{
    text(
        view,
        u64::from(rule.name_place),
        u32::from(rule.name_length),
    )
}

/// The name of a note.
pub fn note_name<'a>(view: &ImageView<'a>, note: &NoteRow) -> &'a [u8]
    ensures { result.now ≡ note_name (image_of view.now) note.now }
{
    text(view, u64::from(note.name_place), note.name_length)
}

/// The name of a string, without the `$`.
pub fn string_name<'a>(view: &ImageView<'a>, string: &StringRow) -> &'a [u8]
    ensures { result.now ≡ string_name (image_of view.now) string.now }
{
    text(view, u64::from(string.name_place), string.name_length)
}

/// The namespace of a rule.
pub fn namespace<'a>(view: &ImageView<'a>, rule: &RuleRow) -> &'a [u8]
    ensures { result.now ≡ namespace_of (image_of view.now) rule.now }
{
    if view.version() == 1 {
        return b"default";
    }
    text(view, u64::from(rule.namespace_place), rule.namespace_length)
}
