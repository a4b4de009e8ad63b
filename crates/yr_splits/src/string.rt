//! Rows of strings, with their splits.

ghost use Rattle.std.specs.Prelude.{◌≡◌, ℕ, ◌+◌, ◌<◌, ◌≤◌, List, [], ◌∷◌, ◌++◌, length, map, All, IfOk, OnOk};
ghost use Rattle.yr_pattern.specs.Variants.{PlainVariant, variant_of};
ghost use Rattle.yr_rules.specs.Rules.{PlainString, string_of};
ghost use Rattle.yr_rules.specs.Wellformed.{IsGoodVariant, IsGoodString};
ghost use Rattle.yr_atoms.specs.Coded.{word};
ghost use Rattle.yr_image.specs.Image.{Image};
ghost use Rattle.yr_splits.specs.Placed.{Placed};
ghost use Rattle.yr_splits.specs.Filling.{Filled, FilledPart};

use crate::split::{one_if, put_splits};
use std::alloc::Global;
use yr_atoms::cover;
use yr_base::{Atom, NoMemory};
use yr_draft::ImageDraft;
use yr_image::StringRow;
use yr_rules::{CheckedString, Variant};

/// Puts the splits of one more variant of the string with this number.
fn put_variant(
    alloc: Global,
    draft: &mut ImageDraft,
    atoms: &mut Vec<Atom>,
    string: u32,
    v: &Variant,
) -> Result<(), NoMemory>
    requires { IsGoodVariant (variant_of v.now) }
    ensures { OnOk result ((start : Image) (placed : List Placed) (strings : List PlainString) (variants : List PlainVariant)
        → length strings ≡ string → FilledPart start draft.old placed strings variants (map word atoms.old.items)
        → (more : List Placed) × FilledPart start draft.new (placed ++ more) strings (variants ++ variant_of v.now ∷ []) (map word atoms.new.items)) }
{
    let splits = cover(alloc, v)?;
    put_splits(alloc, draft, atoms, string, v.border, &splits)?;
    Ok(())
}

/// Puts the splits of all variants of the string with this number.
fn put_variants(
    alloc: Global,
    draft: &mut ImageDraft,
    atoms: &mut Vec<Atom>,
    string: u32,
    variants: &[Variant],
) -> Result<(), NoMemory>
    requires { All IsGoodVariant (map variant_of variants.now) }
    ensures { OnOk result ((start : Image) (placed : List Placed) (strings : List PlainString)
        → length strings ≡ string → FilledPart start draft.old placed strings [] (map word atoms.old.items)
        → (more : List Placed) × FilledPart start draft.new (placed ++ more) strings (map variant_of variants.now) (map word atoms.new.items)) }
{
    for v in variants {
        put_variant(alloc, draft, atoms, string, v)?;
    }
    Ok(())
}

/// Puts the next string, whose number this is: its splits, and then its row.
fn put_string(
    alloc: Global,
    draft: &mut ImageDraft,
    atoms: &mut Vec<Atom>,
    number: u32,
    string: &CheckedString,
) -> Result<(), NoMemory>
    requires { IsGoodString (string_of string.now) }
    ensures { OnOk result ((start : Image) (placed : List Placed) (strings : List PlainString)
        → length strings ≡ number → Filled start draft.old placed strings (map word atoms.old.items)
        → (more : List Placed) × Filled start draft.new (placed ++ more) (strings ++ string_of string.now ∷ []) (map word atoms.new.items)) }
{
    put_variants(alloc, draft, atoms, number, &string.variants)?;
    let name: &[u8] = &string.name;
    let place = draft.put_text(name)?;
    draft.put_string(StringRow {
        name_place: place,
        name_length: name.len() as u32,
        flags: u32::from(one_if(string.hidden)) + 2 * u32::from(one_if(string.greedy)),
        rule: string.rule,
    })?;
    Ok(())
}

/// Puts strings, and tells the atoms of their splits in order.
pub fn put_rows(
    alloc: Global,
    draft: &mut ImageDraft,
    strings: &[CheckedString],
) -> Result<Vec<Atom>, NoMemory>
    requires good { All IsGoodString (map string_of strings.now) }
    requires few { length strings.now ≤ 65535 }
    requires no_strings { draft.old.strings ≡ [] }
    requires no_splits { draft.old.splits ≡ [] }
    ensures { IfOk result (λ atoms. (placed : List Placed)
        × Filled draft.old draft.new placed (map string_of strings.now) (map word atoms.items)) }
{
    let mut atoms = Vec::new(alloc);
    for (k, string) in strings.iter().enumerate() {
        put_string(alloc, draft, &mut atoms, k as u32, string)?;
    }
    Ok(atoms)
}
