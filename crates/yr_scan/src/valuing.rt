//! The values with which an image runs: those that words give, and the image's own.

ghost use Rattle.std.specs.Prelude.{◌≡◌, All, IfOk, map, true};
ghost use Rattle.yr_preserves.specs.Preserves.{IsGivenValue, externals_in};
ghost use Rattle.yr_image.specs.Views.{image_of};
ghost use Rattle.yr_machine.specs.ImageRun.{value_of as plain_value};
ghost use Rattle.yr_machine.specs.Names.{note_name};
ghost use Rattle.yr_machine.specs.Rows.{is_good_external};
ghost use Rattle.yr_outcome.specs.Externals.{given_value, values_with};
ghost use Rattle.yr_values.specs.Values.{shown};
ghost use Rattle.yr_machine.specs.Verified.{bytes_of};
ghost use Rattle.yr_words.specs.Shown.{given_shown, value_shown};

use crate::externals::{external_at, name_of, own_value, text_value};
use std::alloc::Global;
use yr_base::{NoMemory, Value};
use yr_image::{ImageView, NoteRow};
use yr_machine::VerifiedImage;
use yr_words::{Given, GivenValue};

// The value that a word spells.
fn spelled(value: GivenValue<'_>) -> Value<'_>
    ensures value { shown result ≡ value_shown value.entry }
    ensures given { IsGivenValue (shown result) }
{
    match value {
        GivenValue::Number(n) => Value::Number(n),
        GivenValue::Flag(b) => Value::Flag(b),
        GivenValue::Text(text) => text_value(text.as_bytes()),
    }
}

// The value of an external: that of the first word that gives one, or its own.
fn value_with<'a>(view: &ImageView<'a>, givens: &[Given<'a>], row: &NoteRow) -> Value<'a>
    requires good { is_good_external (image_of view.now) row.now ≡ true }
    ensures value { shown result ≡ given_value (map given_shown givens.now) (note_name (image_of view.now) row.now) (plain_value (image_of view.now) row.now) }
    ensures given { IsGivenValue (shown result) }
{
    let name = name_of(view, row);
    let mut rest = givens;
    while let [given, more @ ..] = rest {
        if given.name.as_bytes() == name {
            return spelled(given.value);
        }
        rest = more;
    }
    own_value(view, row)
}

/// A value for each external of the image, in their order: the words' value of its name, or else its own.
pub fn values<'a>(
    alloc: Global,
    image: &VerifiedImage<'a>,
    givens: &[Given<'a>],
) -> Result<Vec<Value<'a>>, NoMemory>
    ensures values { IfOk result (λ values. map shown values.items ≡ values_with (map given_shown givens.now) (externals_in (bytes_of image.now))) }
    ensures given { IfOk result (λ values. All IsGivenValue (map shown values.items)) }
{
    let view = image.view();
    let mut values = Vec::new(alloc);
    for k in 0..view.rows(2) {
        let row = external_at(&view, k);
        values.push(value_with(&view, givens, &row))?;
    }
    Ok(values)
}
