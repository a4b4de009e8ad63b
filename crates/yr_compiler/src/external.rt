//! Rows of external variables.

ghost use Rattle.std.specs.Prelude.{◌≡◌, [], map, IfOk, OnOk};
ghost use Rattle.yr_rules.specs.Rules.{external_of};
ghost use Rattle.yr_compiler.specs.Notes.{external_note};
ghost use Rattle.yr_compiler.specs.Putting.{PutsNote, PutsExternals};

use crate::note::{flag_row, number_row, text_row};
use yr_base::NoMemory;
use yr_draft::ImageDraft;
use yr_image::NoteRow;
use yr_rules::{External, ExternalValue};

/// Puts the texts of an external.
fn external_row(draft: &mut ImageDraft, e: &External) -> Result<NoteRow, NoMemory>
    ensures { IfOk result (λ row. PutsNote draft.old draft.new (external_note (external_of e.now)) row) }
{
    let name = e.name.as_bytes();
    match &e.value {
        ExternalValue::Text(text) => {
            let row = text_row(draft, name, text)?;
            Ok(row)
        }
        ExternalValue::Number(n) => {
            let row = number_row(draft, name, *n)?;
            Ok(row)
        }
        ExternalValue::Flag(b) => {
            let row = flag_row(draft, name, *b)?;
            Ok(row)
        }
    }
}

/// Puts external variables into an image that has none.
pub fn put_externals(draft: &mut ImageDraft, externals: &[External]) -> Result<(), NoMemory>
    requires { draft.old.externals ≡ [] }
    ensures { OnOk result (PutsExternals draft.old draft.new (map external_of externals.now)) }
{
    for e in externals {
        let row = external_row(draft, e)?;
        draft.put_external(row)?;
    }
    Ok(())
}
