//! Rows of splits.

ghost use Rattle.std.specs.Prelude.{◌≡◌, ◌+◌, ◌≤◌, [], ◌∷◌, ◌++◌, length, map, Some, All, OnOk};
ghost use Rattle.yr_atoms.specs.Splits.{piece_size};
ghost use Rattle.yr_atoms.specs.Coded.{piece_of, split_of, word};
ghost use Rattle.yr_machine.specs.ImageMatches.{border_of};
ghost use Rattle.yr_splits.specs.Placed.{place, place_all};
ghost use Rattle.yr_splits.specs.SplitRows.{flag as flag_of};
ghost use Rattle.yr_splits.specs.Filling.{PutsSplits, IsSmall};

use crate::side::put_side;
use std::alloc::Global;
use yr_atoms::Split;
use yr_base::{Atom, Border, NoMemory};
use yr_draft::ImageDraft;
use yr_image::SplitRow;

/// The number of a border.
fn border_number(border: Border) -> u8
    ensures { border_of result ≡ Some border }
{
    match border {
        Border::Free => 0,
        Border::Plain => 1,
        Border::Wide => 2,
    }
}

/// 1 for a flag that is set.
pub fn one_if(flag: bool) -> u8
    ensures { result ≡ flag_of flag }
{
    if flag { 1 } else { 0 }
}

/// How many bytes an atom has.
fn atom_length(atom: &Atom) -> u8
    ensures { result ≡ length (word atom.now) }
{
    atom.bytes[..atom.len as usize].len() as u8
}

/// Puts a split of a string.
fn put_split(
    alloc: Global,
    draft: &mut ImageDraft,
    string: u32,
    border: Border,
    split: &Split,
) -> Result<(), NoMemory>
    requires { IsSmall (split_of split.now) }
    ensures { OnOk result (PutsSplits draft.old draft.new (place string border (split_of split.now) ∷ [])) }
{
    let before = put_side(alloc, draft, &split.before, true)?;
    let after = put_side(alloc, draft, &split.after, false)?;
    draft.put_split(SplitRow {
        string,
        border: border_number(border),
        before_kind: before.kind,
        after_kind: after.kind,
        key: split.key,
        fold: one_if(split.fold),
        atom_length: atom_length(&split.atom),
        before_place: before.place,
        before_length: before.length,
        after_place: after.place,
        after_length: after.length,
    })?;
    Ok(())
}

/// Puts the splits of a variant, and keeps their atoms in the same order.
pub fn put_splits(
    alloc: Global,
    draft: &mut ImageDraft,
    atoms: &mut Vec<Atom>,
    string: u32,
    border: Border,
    splits: &[Split],
) -> Result<(), NoMemory>
    requires { All IsSmall (map split_of splits.now) }
    ensures splits { OnOk result (PutsSplits draft.old draft.new (place_all string border (map split_of splits.now))) }
    ensures atoms { OnOk result (map word atoms.new.items ≡ map word atoms.old.items ++ map (λ s. s.atom) (map split_of splits.now)) }
{
    for split in splits {
        put_split(alloc, draft, string, border, split)?;
        atoms.push(split.atom)?;
    }
    Ok(())
}
