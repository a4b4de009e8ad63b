//! Words that give values to what the image does not have.

ghost use Rattle.std.specs.Prelude.{◌≡◌, IfOk, map, true};
ghost use Rattle.std.specs.Option.{option_map};
ghost use Rattle.yr_preserves.specs.Preserves.{external_in, externals_in};
ghost use Rattle.yr_image.specs.Views.{image_of, shown_bytes};
ghost use Rattle.yr_machine.specs.ImageRun.{value_of as plain_value};
ghost use Rattle.yr_machine.specs.Rows.{is_good_external};
ghost use Rattle.yr_machine.specs.Wellformed.{IsWellformed};
ghost use Rattle.yr_outcome.specs.Externals as plain;
ghost use Rattle.yr_scan.specs.Misfits.{refusal_of, misfit_refusal, why as plain_why};
ghost use Rattle.yr_outcome.specs.declared.status.Status.TheVariants as status;
ghost use Rattle.yr_outcome.specs.Steps.{IsRefusalOf};
ghost use Rattle.yr_outcome.specs.Texts.{external_text};
ghost use Rattle.yr_machine.specs.Verified.{bytes_of};
ghost use Rattle.yr_words.specs.Shown.{given_shown, value_shown};

use crate::externals::{external_at, name_of};
use std::alloc::{AllocError, Global};
use yr_image::{ImageView, NoteRow};
use yr_machine::VerifiedImage;
use yr_outcome::{Answer, Status, join};
use yr_words::{Given, GivenValue};

/// Why a word does not fit an image.
#[derive(Clone, Copy, Debug, PartialEq, Eq)]
pub enum Misfit {
    /// The image has no external of this name.
    Unknown,
    /// Its external of this name has another kind.
    Kind,
}

// The external of a name.
fn external_named(view: &ImageView<'_>, name: &[u8]) -> Option<NoteRow>
    requires wellformed { IsWellformed (shown_bytes view.now) }
    ensures { option_map (external_in (image_of view.now)) result ≡ plain.external_named name.now (externals_in (shown_bytes view.now)) }
{
    for k in 0..view.rows(2) {
        let row = external_at(view, k);
        if name_of(view, &row) == name {
            return Some(row);
        }
    }
    None
}

// Whether the external's own value and the word's are of one kind.
fn is_of_kind(row: &NoteRow, value: GivenValue<'_>) -> bool
    ensures { (image : _) → result ≡ plain.same_kind (plain_value image row.now) (value_shown value.entry) }
{
    match value {
        GivenValue::Text(_) => row.kind == 1,
        GivenValue::Number(_) => row.kind == 2,
        GivenValue::Flag(_) => row.kind != 1 && row.kind != 2,
    }
}

// Why a word does not fit.
fn misfit_of(view: &ImageView<'_>, given: &Given<'_>) -> Option<Misfit>
    requires wellformed { IsWellformed (shown_bytes view.now) }
    ensures { option_map (refusal_of given.now.name.now) result
        ≡ plain.misfit (given_shown given.now) (plain.external_named given.now.name.now (externals_in (shown_bytes view.now))) }
{
    match external_named(view, given.name.as_bytes()) {
        None => Some(Misfit::Unknown),
        Some(row) => {
            if is_of_kind(&row, given.value) {
                None
            } else {
                Some(Misfit::Kind)
            }
        }
    }
}

/// The first word that does not fit the externals of the image, and why.
pub fn first_misfit<'a>(
    image: &VerifiedImage<'_>,
    givens: &[Given<'a>],
) -> Option<(&'a str, Misfit)>
    ensures { option_map misfit_refusal result ≡ plain.first_misfit (externals_in (bytes_of image.now)) (map given_shown givens.now) }
{
    let view = image.view();
    let mut rest = givens;
    while let [given, more @ ..] = rest {
        match misfit_of(&view, given) {
            Some(misfit) => return Some((given.name, misfit)),
            None => rest = more,
        }
    }
    None
}

// Its name.
fn why(misfit: Misfit) -> &'static str
    ensures { result.now ≡ plain_why misfit }
{
    match misfit {
        Misfit::Unknown => "Unknown",
        Misfit::Kind => "Kind",
    }
}

fn misfit_text(alloc: Global, name: &str, misfit: Misfit) -> Result<Vec<u8>, AllocError>
    ensures { IfOk result (λ text. text.items ≡ external_text name.now (plain_why misfit)) }
{
    let mut text = join(alloc, &[b"external ", name.as_bytes(), b": "])?;
    text.extend_from_slice(why(misfit).as_bytes())?;
    text.push(b'\n')?;
    Ok(text)
}

/// The refusal of the external of this name.
pub fn refuse_external<'a>(alloc: Global, name: &str, misfit: Misfit) -> Answer<'a>
    ensures { IsRefusalOf status.External (external_text name.now (plain_why misfit)) result }
{
    match misfit_text(alloc, name, misfit) {
        Ok(text) => Answer::Refused {
            status: Status::External,
            text,
        },
        Err(_) => Answer::NoMemory,
    }
}
