//! The forms of a text string.

ghost use Rattle.std.specs.Prelude.{◌≡◌, ◌++◌, map, IfOk, OnOk};
ghost use Rattle.yr_text.specs.Forms.{form_of, widened, plain_border, wide_border, plain_form, wide_form, forms_of};

use crate::modifiers::Modifiers;
use std::alloc::Global;
use yr_base::{Border, NoMemory};

/// Bytes, and what must stand beside them.
#[derive(Drop)]
pub struct Form {
    pub bytes: Vec<u8>,
    pub border: Border,
}

/// The bytes with a zero byte after each.
pub fn widen_bytes(alloc: Global, bytes: &[u8]) -> Result<Vec<u8>, NoMemory>
    ensures { IfOk result (λ wide. wide.items ≡ widened bytes.now) }
{
    let mut wide = Vec::new(alloc);
    for b in bytes {
        wide.push(*b)?;
        wide.push(0)?;
    }
    Ok(wide)
}

pub fn copy_bytes(alloc: Global, bytes: &[u8]) -> Result<Vec<u8>, NoMemory>
    ensures { IfOk result (λ copy. copy.items ≡ bytes.now) }
{
    let mut copy = Vec::new(alloc);
    copy.extend_from_slice(bytes)?;
    Ok(copy)
}

fn border_of_plain(modifiers: &Modifiers) -> Border
    ensures { result ≡ plain_border modifiers.now }
{
    if modifiers.full {
        Border::Plain
    } else {
        Border::Free
    }
}

fn border_of_wide(modifiers: &Modifiers) -> Border
    ensures { result ≡ wide_border modifiers.now }
{
    if modifiers.full {
        Border::Wide
    } else {
        Border::Free
    }
}

fn push_plain(
    alloc: Global,
    all: &mut Vec<Form>,
    bytes: &[u8],
    modifiers: &Modifiers,
) -> Result<(), NoMemory>
    ensures { OnOk result (map form_of all.new.items
        ≡ map form_of all.old.items ++ plain_form bytes.now modifiers.now) }
{
    if modifiers.wide && !modifiers.ascii {
        return Ok(());
    }
    let bytes = copy_bytes(alloc, bytes)?;
    let border = border_of_plain(modifiers);
    all.push(Form { bytes, border })?;
    Ok(())
}

fn push_wide(
    alloc: Global,
    all: &mut Vec<Form>,
    bytes: &[u8],
    modifiers: &Modifiers,
) -> Result<(), NoMemory>
    ensures { OnOk result (map form_of all.new.items
        ≡ map form_of all.old.items ++ wide_form bytes.now modifiers.now) }
{
    if !modifiers.wide {
        return Ok(());
    }
    let bytes = widen_bytes(alloc, bytes)?;
    let border = border_of_wide(modifiers);
    all.push(Form { bytes, border })?;
    Ok(())
}

/// The forms of a text string: the plain one before the wide one.
pub fn forms(alloc: Global, bytes: &[u8], modifiers: &Modifiers) -> Result<Vec<Form>, NoMemory>
    ensures { IfOk result (λ all. map form_of all.items ≡ forms_of bytes.now modifiers.now) }
{
    let mut all = Vec::new(alloc);
    push_plain(alloc, &mut all, bytes, modifiers)?;
    push_wide(alloc, &mut all, bytes, modifiers)?;
    Ok(all)
}
