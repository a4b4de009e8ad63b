//! The base64 variants of texts against the coder of the crate `base64`.

ghost use Rattle.std.specs.Prelude.{◌<◌, length};

use base64::engine::GeneralPurpose;
use base64::engine::general_purpose::{STANDARD, URL_SAFE};
use std::alloc::Global;
use std::test::Fail;
use yr_base::{Border, NoMemory};
use yr_pattern::{Variant, VariantBody};
use yr_syntax::{Modifier, StringKind};
use yr_text::{Modifiers, check_modifiers, variants};

const URL_LETTERS: [u8; 64] = *b"ABCDEFGHIJKLMNOPQRSTUVWXYZabcdefghijklmnopqrstuvwxyz0123456789-_";

/// The next state of a linear generator.
fn next_state(state: u32) -> u32 {
    state.wrapping_mul(1_664_525).wrapping_add(1_013_904_223)
}

/// As many bytes as asked for, drawn from a linear generator that begins with a seed.
fn drawn(alloc: Global, seed: u32, count: usize) -> Result<Vec<u8>, NoMemory> {
    let mut state = seed;
    let mut bytes = Vec::new(alloc);
    for _ in 0..count {
        state = next_state(state);
        bytes.push((state >> 24) as u8)?;
    }
    Ok(bytes)
}

/// Of the letters of a text that stands after some other bytes, those whose six bits lie in the text.
fn known(letters: &[u8], before: u8, count: usize) -> Option<&[u8]> {
    let first = (8 * before as u128).div_ceil(6);
    let last = (8 * before as u128 + 8 * count as u128) / 6;
    let last = usize::try_from(last).ok()?;
    letters.get(first as usize..last)
}

/// Adds letters as a line, with a zero byte after each where they are wide.
fn put_letters(lines: &mut Vec<u8>, letters: &[u8], wide: bool) -> Result<(), NoMemory> {
    for letter in letters {
        lines.push(*letter)?;
        if wide {
            lines.push(0)?;
        }
    }
    lines.push(b'\n')?;
    Ok(())
}

/// Adds the letters that a text has after some zero bytes and that hang on the text alone, if there are any.
fn put_aligned(
    alloc: Global,
    lines: &mut Vec<u8>,
    coder: &GeneralPurpose,
    text: &[u8],
    before: u8,
    wide: bool,
) -> Result<(), NoMemory> {
    let mut whole = Vec::new(alloc);
    for _ in 0..before {
        whole.push(0)?;
    }
    whole.extend_from_slice(text)?;
    let letters = coder.encode(alloc, &whole)?;
    match known(letters.as_bytes(), before, text.len()) {
        Some([]) => Ok(()),
        Some(known) => put_letters(lines, known, wide),
        None => put_letters(lines, b"none", wide),
    }
}

/// Adds the letters of a text at its three alignments.
fn put_coded(
    alloc: Global,
    lines: &mut Vec<u8>,
    coder: &GeneralPurpose,
    text: &[u8],
    wide: bool,
) -> Result<(), NoMemory> {
    for before in 0..3 {
        put_aligned(alloc, lines, coder, text, before, wide)?;
    }
    Ok(())
}

/// Adds the bytes of a variant as a line, or `other` where it has a key, folds, or has a border.
fn put_variant(lines: &mut Vec<u8>, variant: &Variant) -> Result<(), NoMemory> {
    match &variant.body {
        VariantBody::Literal {
            bytes,
            key: 0,
            fold: false,
        } if variant.border == Border::Free => put_letters(lines, bytes, false),
        _ => put_letters(lines, b"other", false),
    }
}

/// The variants of a text, each a line, and how many there are.
fn given(alloc: Global, text: &[u8], modifiers: &Modifiers) -> Result<(Vec<u8>, usize), NoMemory>
    requires { 0 < length text.now }
{
    let all = variants(alloc, text, modifiers)?;
    let mut lines = Vec::new(alloc);
    for variant in &all {
        put_variant(&mut lines, variant)?;
    }
    Ok((lines, all.len()))
}

/// The lines that one coder gives for `base64` and another for `base64wide`.
fn wanted(
    alloc: Global,
    text: &[u8],
    plain: Option<&GeneralPurpose>,
    wide: Option<&GeneralPurpose>,
) -> Result<Vec<u8>, NoMemory> {
    let mut lines = Vec::new(alloc);
    if let Some(coder) = plain {
        put_coded(alloc, &mut lines, coder, text, false)?;
    }
    if let Some(coder) = wide {
        put_coded(alloc, &mut lines, coder, text, true)?;
    }
    Ok(lines)
}

/// Over a hundred texts of 1 to 12 bytes: how many have the variants that the coders give, and how many variants they have.
fn agreeing(
    alloc: Global,
    modifiers: &Modifiers,
    plain: Option<&GeneralPurpose>,
    wide: Option<&GeneralPurpose>,
) -> Result<(usize, usize), NoMemory> {
    let mut texts: usize = 0;
    let mut total: usize = 0;
    for i in 0..100 {
        let text = drawn(alloc, i as u32, i % 12 + 1)?;
        if text.is_empty() {
            continue;
        }
        let (lines, count) = given(alloc, &text, modifiers)?;
        let coded = wanted(alloc, &text, plain, wide)?;
        if lines.as_slice() == coded.as_slice() {
            texts = texts.saturating_add(1);
        }
        total = total.saturating_add(count);
    }
    Ok((texts, total))
}

/// A text of one byte has no letter of its own after one byte: of the hundred texts nine have two variants, the others three.
#[test]
fn variants_against_another_coder(rt: HostRuntime) -> Result<(), Fail> {
    let alloc = rt.alloc();
    let kind = StringKind::Text;
    let usual = check_modifiers(&[Modifier::Base64(None)], kind)?;
    let wide = check_modifiers(&[Modifier::Base64Wide(None)], kind)?;
    let mut letters = Vec::new(alloc);
    letters.extend_from_slice(&URL_LETTERS)?;
    let both = check_modifiers(
        &[Modifier::Base64Wide(None), Modifier::Base64(Some(letters))],
        kind,
    )?;
    assert_eq!(rt; agreeing(alloc, &usual, Some(&STANDARD), None)?, (100, 291));
    assert_eq!(rt; agreeing(alloc, &wide, None, Some(&STANDARD))?, (100, 291));
    assert_eq!(rt;
        agreeing(alloc, &both, Some(&URL_SAFE), Some(&STANDARD))?,
        (100, 582)
    );
    Ok(())
}
