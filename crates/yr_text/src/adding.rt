//! The variants of the forms of a text, added to a list.

ghost use Rattle.std.specs.Prelude.{◌≡◌, ◌++◌, ◌∷◌, [], map, IfOk, OnOk};
ghost use Rattle.std.specs.List.{flat_map};
ghost use Rattle.yr_pattern.specs.Variants.{variant_of};
ghost use Rattle.yr_text.specs.Forms.{form_of};
ghost use Rattle.yr_text.specs.Variants.{literal, under_keys, literals_of, literals, unless_empty, spread, aligned, alignments, encodings};

use crate::encoding::encode;
use crate::form::{Form, copy_bytes, widen_bytes};
use crate::modifiers::Modifiers;
use std::alloc::Global;
use yr_base::{Border, NoMemory};
use yr_pattern::{Variant, VariantBody};

fn push_literal(
    all: &mut Vec<Variant>,
    bytes: Vec<u8>,
    key: u8,
    fold: bool,
    border: Border,
) -> Result<(), NoMemory>
    ensures { OnOk result (map variant_of all.new.items
        ≡ map variant_of all.old.items ++ literal bytes.items key fold border ∷ []) }
{
    let body = VariantBody::Literal { bytes, key, fold };
    all.push(Variant { body, border })?;
    Ok(())
}

/// The form under each key from the first to the last.
fn push_keys(
    alloc: Global,
    all: &mut Vec<Variant>,
    form: &Form,
    low: u8,
    high: u8,
) -> Result<(), NoMemory>
    ensures { OnOk result (map variant_of all.new.items
        ≡ map variant_of all.old.items ++ under_keys (form_of form.now) low high) }
{
    for key in low as u16..high as u16 + 1 {
        let bytes = copy_bytes(alloc, &form.bytes)?;
        push_literal(all, bytes, key as u8, false, form.border)?;
    }
    Ok(())
}

fn push_literals_of(
    alloc: Global,
    all: &mut Vec<Variant>,
    form: &Form,
    modifiers: &Modifiers,
) -> Result<(), NoMemory>
    ensures { OnOk result (map variant_of all.new.items
        ≡ map variant_of all.old.items
        ++ literals_of modifiers.now.xor modifiers.now.nocase (form_of form.now)) }
{
    match modifiers.xor {
        Some((low, high)) => push_keys(alloc, all, form, low, high),
        None => {
            let bytes = copy_bytes(alloc, &form.bytes)?;
            push_literal(all, bytes, 0, modifiers.nocase, form.border)
        }
    }
}

fn push_all_literals(
    alloc: Global,
    all: &mut Vec<Variant>,
    forms: &[Form],
    modifiers: &Modifiers,
) -> Result<(), NoMemory>
    ensures { OnOk result (map variant_of all.new.items
        ≡ map variant_of all.old.items
        ++ flat_map (literals_of modifiers.now.xor modifiers.now.nocase) (map form_of forms.now)) }
{
    for form in forms {
        push_literals_of(alloc, all, form, modifiers)?;
    }
    Ok(())
}

/// The variants of forms without base64.
pub fn push_literals(
    alloc: Global,
    all: &mut Vec<Variant>,
    forms: &[Form],
    modifiers: &Modifiers,
) -> Result<(), NoMemory>
    ensures { OnOk result (map variant_of all.new.items
        ≡ map variant_of all.old.items ++ literals modifiers.now (map form_of forms.now)) }
{
    if modifiers.base64.is_some() || modifiers.base64wide.is_some() {
        return Ok(());
    }
    push_all_literals(alloc, all, forms, modifiers)
}

fn push_unless_empty(all: &mut Vec<Variant>, text: Vec<u8>, border: Border) -> Result<(), NoMemory>
    ensures { OnOk result (map variant_of all.new.items
        ≡ map variant_of all.old.items ++ unless_empty text.items border) }
{
    if text.is_empty() {
        return Ok(());
    }
    push_literal(all, text, 0, false, border)
}

fn spread_out(alloc: Global, wide: bool, text: Vec<u8>) -> Result<Vec<u8>, NoMemory>
    ensures { IfOk result (λ bytes. bytes.items ≡ spread wide text.items) }
{
    if wide {
        widen_bytes(alloc, &text)
    } else {
        Ok(text)
    }
}

fn push_aligned(
    alloc: Global,
    all: &mut Vec<Variant>,
    alphabet: &[u8; 64],
    wide: bool,
    form: &Form,
    p: u8,
) -> Result<(), NoMemory>
    ensures { OnOk result (map variant_of all.new.items
        ≡ map variant_of all.old.items ++ aligned alphabet.now wide (form_of form.now) p) }
{
    let letters = encode(alloc, alphabet, &form.bytes, p)?;
    let text = spread_out(alloc, wide, letters)?;
    push_unless_empty(all, text, form.border)
}

fn push_alignments(
    alloc: Global,
    all: &mut Vec<Variant>,
    alphabet: &[u8; 64],
    wide: bool,
    form: &Form,
) -> Result<(), NoMemory>
    ensures { OnOk result (map variant_of all.new.items
        ≡ map variant_of all.old.items ++ alignments alphabet.now wide (form_of form.now)) }
{
    push_aligned(alloc, all, alphabet, wide, form, 0)?;
    push_aligned(alloc, all, alphabet, wide, form, 1)?;
    push_aligned(alloc, all, alphabet, wide, form, 2)
}

fn push_all_alignments(
    alloc: Global,
    all: &mut Vec<Variant>,
    alphabet: &[u8; 64],
    wide: bool,
    forms: &[Form],
) -> Result<(), NoMemory>
    ensures { OnOk result (map variant_of all.new.items
        ≡ map variant_of all.old.items
        ++ flat_map (alignments alphabet.now wide) (map form_of forms.now)) }
{
    for form in forms {
        push_alignments(alloc, all, alphabet, wide, form)?;
    }
    Ok(())
}

/// The variants of forms in base64, where there is an alphabet.
pub fn push_encodings(
    alloc: Global,
    all: &mut Vec<Variant>,
    alphabet: &Option<[u8; 64]>,
    wide: bool,
    forms: &[Form],
) -> Result<(), NoMemory>
    ensures { OnOk result (map variant_of all.new.items
        ≡ map variant_of all.old.items ++ encodings alphabet.now wide (map form_of forms.now)) }
{
    match alphabet {
        None => Ok(()),
        Some(letters) => push_all_alignments(alloc, all, letters, wide, forms),
    }
}
