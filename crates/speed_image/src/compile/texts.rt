//! The texts of rules that are made, with their modifiers.

ghost use Rattle.std.specs.Prelude.{◌<◌, map, length, All, IfOk};
ghost use Rattle.yr_pattern.specs.Variants.{variant_of};
ghost use Rattle.yr_text.specs.Variants.{IsSound};

use std::alloc::Global;
use yr_base::NoMemory;
use yr_text::{Modifiers, Variant, variants};

/// What the rules have.
#[derive(Clone, Copy)]
pub enum Form {
    /// A text as it stands.
    OneText,
    /// In turn a text as it stands, one in either case that is wide, one under 255 keys, and one in
    /// base64.
    FourModifiers,
}

const USUAL: [u8; 64] = *b"ABCDEFGHIJKLMNOPQRSTUVWXYZabcdefghijklmnopqrstuvwxyz0123456789+/";

const NONE: Modifiers = Modifiers {
    nocase: false,
    wide: false,
    ascii: false,
    full: false,
    hidden: false,
    xor: None,
    base64: None,
    base64wide: None,
};

fn modifiers(form: Form, k: u32) -> Modifiers {
    match (form, k % 4) {
        (Form::FourModifiers, 1) => Modifiers {
            nocase: true,
            wide: true,
            ..NONE
        },
        (Form::FourModifiers, 2) => Modifiers {
            xor: Some((1, 255)),
            ..NONE
        },
        (Form::FourModifiers, 3) => Modifiers {
            base64: Some(USUAL),
            ..NONE
        },
        _ => NONE,
    }
}

fn next(state: u32) -> u32 {
    state.wrapping_mul(1_664_525).wrapping_add(1_013_904_223)
}

fn letter(state: u32) -> u8 {
    b'a' + ((state >> 16) % 26) as u8
}

// Eight letters, drawn from the rule's number.
fn text(k: u32) -> [u8; 8] {
    let mut letters = [b'a'; 8];
    let mut state = next(k);
    for i in 0..8 {
        state = next(state);
        letters[i] = letter(state);
    }
    letters
}

/// The variants of the string of rule k.
pub fn variants_of(alloc: Global, form: Form, k: u32) -> Result<Vec<Variant>, NoMemory>
    ensures { IfOk result (λ all. All IsSound (map variant_of all.items)) }
{
    let letters = text(k);
    let all = variants(alloc, &letters, &modifiers(form, k))?;
    Ok(all)
}
