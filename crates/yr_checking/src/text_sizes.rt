//! What the variants of a text weigh, and whether one is too large, by the text's length alone: none is made.

ghost use Rattle.std.specs.Prelude.{◌≡◌, ℕ, ◌+◌, ◌*◌, ◌≤◌, ◌<◌, ◌^◌, ◌||◌, not, if◌then◌else◌};
ghost use Rattle.yr_checking.specs.TextSizes as spec;

use yr_text::Modifiers;

/// What variants weigh, and whether one is too large.
#[derive(Clone, Copy)]
pub struct Tally {
    pub weight: u128,
    pub large: bool,
}

fn nothing() -> Tally
    ensures { spec.IsTally result (λ g. 0) }
{
    Tally {
        weight: 0,
        large: false,
    }
}

/// So many variants of this size.
fn alike(count: u128, size: u128) -> Tally
    requires { size < 2 ^ 100 }
    ensures { spec.IsTally result (λ g. count * g size) }
{
    Tally {
        weight: count.saturating_mul(64 + size),
        large: count > 0 && size > 65535,
    }
}

/// Both of them.
fn both(one: Tally, other: Tally) -> Tally
    ensures { (x y : (ℕ → ℕ) → ℕ) → spec.IsTally one x → spec.IsTally other y → spec.IsTally result (λ g. x g + y g) }
{
    Tally {
        weight: one.weight.saturating_add(other.weight),
        large: one.large || other.large,
    }
}

fn unknown_letters(before: u128) -> u128
    ensures { result ≡ spec.unknown_letters before }
{
    match before {
        0 => 0,
        1 => 2,
        _ => 3,
    }
}

/// How many letters of base64 stand for so many bytes after some unknown ones.
fn letters(size: u128, before: u128) -> u128
    requires size { size < 2 ^ 80 }
    requires before { before ≤ 2 }
    ensures value { result ≡ spec.letters size before }
    ensures low { result < 2 ^ 90 }
{
    ((8 * before + 8 * size) / 6).saturating_sub(unknown_letters(before))
}

fn spread(wide: bool, size: u128) -> u128
    requires { size < 2 ^ 90 }
    ensures value { result ≡ (if wide then 2 * size else size) }
    ensures low { result < 2 ^ 100 }
{
    if wide { 2 * size } else { size }
}

/// A variant of this size, unless it has no byte.
fn unless_empty(size: u128) -> Tally
    requires { size < 2 ^ 100 }
    ensures { spec.IsTally result (λ g. spec.unless_none g size) }
{
    if size > 0 { alike(1, size) } else { nothing() }
}

/// A form of this size in base64 after some unknown bytes.
fn aligned(wide: bool, size: u128, before: u128) -> Tally
    requires size { size < 2 ^ 80 }
    requires before { before ≤ 2 }
    ensures { spec.IsTally result (λ g. spec.aligned_sum g wide size before) }
{
    unless_empty(spread(wide, letters(size, before)))
}

/// A form of this size in base64, where there is an alphabet.
fn encodings(some: bool, wide: bool, size: u128) -> Tally
    requires { size < 2 ^ 80 }
    ensures { spec.IsTally result (λ g. spec.encodings_sum g some wide size) }
{
    if some {
        let first = both(aligned(wide, size, 0), aligned(wide, size, 1));
        both(first, aligned(wide, size, 2))
    } else {
        nothing()
    }
}

fn key_count(keys: Option<(u8, u8)>) -> u128
    ensures { result ≡ spec.key_count keys }
{
    match keys {
        None => 1,
        Some((low, high)) => (u128::from(high) + 1).saturating_sub(u128::from(low)),
    }
}

/// A form of this size under its keys.
fn literals(modifiers: &Modifiers, size: u128) -> Tally
    requires { size < 2 ^ 80 }
    ensures { spec.IsTally result (λ g. spec.literals_sum g modifiers.now size) }
{
    if modifiers.base64.is_some() || modifiers.base64wide.is_some() {
        nothing()
    } else {
        alike(key_count(modifiers.xor), size)
    }
}

/// A form of this size.
fn form(modifiers: &Modifiers, size: u128) -> Tally
    requires { size < 2 ^ 80 }
    ensures { spec.IsTally result (λ g. spec.form_sum g modifiers.now size) }
{
    let encoded = encodings(modifiers.base64.is_some(), false, size);
    let plain = both(literals(modifiers, size), encoded);
    let encoded_wide = encodings(modifiers.base64wide.is_some(), true, size);
    both(plain, encoded_wide)
}

/// The same, where the text has the form.
fn form_where(test: bool, modifiers: &Modifiers, size: u128) -> Tally
    requires { size < 2 ^ 80 }
    ensures { spec.IsTally result (λ g. if test then spec.form_sum g modifiers.now size else 0) }
{
    if test {
        form(modifiers, size)
    } else {
        nothing()
    }
}

/// Whether a text stands as it is among its forms.
fn has_plain_form(modifiers: &Modifiers) -> bool
    ensures { result ≡ (modifiers.now.ascii || not modifiers.now.wide) }
{
    modifiers.ascii || !modifiers.wide
}

/// A text of so many bytes.
pub fn text_tally(modifiers: &Modifiers, size: usize) -> Tally
    ensures { spec.IsTally result (λ g. spec.text_sum g modifiers.now size) }
{
    let size = size as u128;
    let plain = form_where(has_plain_form(modifiers), modifiers, size);
    let wide = form_where(modifiers.wide, modifiers, 2 * size);
    both(plain, wide)
}
