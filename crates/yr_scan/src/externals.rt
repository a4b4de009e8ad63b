//! The externals of an image: their rows, names and own values.

ghost use Rattle.std.specs.Prelude.{◌≡◌, ◌<◌, Some, length, slice_get, true};
ghost use Rattle.yr_preserves.specs.Preserves.{IsGivenValue};
ghost use Rattle.yr_image.specs.Image.{in_pool, pool_text};
ghost use Rattle.yr_image.specs.Views.{image_of, shown_bytes};
ghost use Rattle.yr_machine.specs.ImageRun.{value_of as plain_value};
ghost use Rattle.yr_machine.specs.Names.{note_name};
ghost use Rattle.yr_machine.specs.Rows.{is_good_external};
ghost use Rattle.yr_machine.specs.Wellformed.{IsWellformed};
ghost use Rattle.yr_values.specs.Values.{Text, shown};

use crate::are_bytes;
use yr_base::Value;
use yr_image::{ImageView, NoteRow};

/// Row k of the externals.
pub fn external_at(view: &ImageView<'_>, k: u32) -> NoteRow
    requires wellformed { IsWellformed (shown_bytes view.now) }
    requires there { k < length (image_of view.now).externals }
    ensures row { slice_get (image_of view.now).externals k ≡ Some result }
    ensures good { is_good_external (image_of view.now) result ≡ true }
{
    view.external(k)
}

// A range of the pool.
fn text_at<'a>(view: &ImageView<'a>, place: u64, count: u32) -> &'a [u8]
    requires { in_pool (image_of view.now) place count ≡ true }
    ensures { result.now ≡ pool_text (image_of view.now) place count }
{
    let pool = view.bytes_of(13);
    let start = place as usize;
    &pool[start..start + count as usize]
}

/// The name of an external.
pub fn name_of<'a>(view: &ImageView<'a>, row: &NoteRow) -> &'a [u8]
    requires good { is_good_external (image_of view.now) row.now ≡ true }
    ensures { result.now ≡ note_name (image_of view.now) row.now }
{
    text_at(view, u64::from(row.name_place), row.name_length)
}

/// A text as a value.
pub fn text_value(text: &[u8]) -> Value<'_>
    ensures value { shown result ≡ Text text.now }
    ensures given { IsGivenValue (shown result) }
{
    are_bytes(text);
    Value::Text(text)
}

/// The image's own value of an external.
pub fn own_value<'a>(view: &ImageView<'a>, row: &NoteRow) -> Value<'a>
    requires good { is_good_external (image_of view.now) row.now ≡ true }
    ensures value { shown result ≡ plain_value (image_of view.now) row.now }
    ensures given { IsGivenValue (shown result) }
{
    match row.kind {
        1 => text_value(text_at(view, row.value, row.value_length)),
        2 => Value::Number(row.value.cast_signed()),
        _ => Value::Flag(row.value == 1),
    }
}
