//! The variants of a text string.

ghost use Rattle.std.specs.Prelude.{◌≡◌, ◌<◌, length, map, All, IfOk};
ghost use Rattle.yr_pattern.specs.Variants.{variant_of};
ghost use Rattle.yr_text.specs.Variants.{variants_of, IsSound};

use crate::adding::{push_encodings, push_literals};
use crate::form::forms;
use crate::modifiers::Modifiers;
use std::alloc::Global;
use yr_base::NoMemory;
use yr_pattern::Variant;

/// The variants of a text string: its forms as they are, under each key, or in base64. Where `check_modifiers`
/// lets base64 stand, `xor`, `nocase` and `fullword` do not stand beside it.
pub fn variants(
    alloc: Global,
    bytes: &[u8],
    modifiers: &Modifiers,
) -> Result<Vec<Variant>, NoMemory>
    requires { 0 < length bytes.now }
    ensures variants { IfOk result (λ all.
        map variant_of all.items ≡ variants_of bytes.now modifiers.now) }
    ensures wellformed { IfOk result (λ all. All IsSound (map variant_of all.items)) }
{
    let all = collect(alloc, bytes, modifiers)?;
    Ok(all)
}

fn collect(alloc: Global, bytes: &[u8], modifiers: &Modifiers) -> Result<Vec<Variant>, NoMemory>
    ensures { IfOk result (λ all. map variant_of all.items ≡ variants_of bytes.now modifiers.now) }
{
    let forms = forms(alloc, bytes, modifiers)?;
    let mut all = Vec::new(alloc);
    push_literals(alloc, &mut all, &forms, modifiers)?;
    push_encodings(alloc, &mut all, &modifiers.base64, false, &forms)?;
    push_encodings(alloc, &mut all, &modifiers.base64wide, true, &forms)?;
    Ok(all)
}
