//! What stands beside a place of a file.

ghost use Rattle.std.specs.Prelude.{◌≡◌, ◌<◌, ◌≤◌, length};
ghost use Rattle.yr_base.specs.Bytes.{is_word_byte, is_alphanumeric, is_zero};
ghost use Rattle.yr_base.specs.Places.{byte_is, byte_before_is, pair_is, pair_before_is, is_edge, is_wide_edge, has_left_border, has_right_border};

use crate::border::Border;
use crate::byte::{is_alphanumeric, is_word_byte};

fn is_word_byte_at(file: &[u8], at: usize) -> bool
    ensures { result ≡ byte_is is_word_byte file.now at }
{
    match file.get(at) {
        Some(b) => is_word_byte(*b),
        None => false,
    }
}

fn is_alphanumeric_at(file: &[u8], at: usize) -> bool
    ensures { result ≡ byte_is is_alphanumeric file.now at }
{
    match file.get(at) {
        Some(b) => is_alphanumeric(*b),
        None => false,
    }
}

fn is_zero_at(file: &[u8], at: usize) -> bool
    ensures { result ≡ byte_is is_zero file.now at }
{
    match file.get(at) {
        Some(b) => *b == 0,
        None => false,
    }
}

fn is_word_byte_before(file: &[u8], at: usize) -> bool
    ensures { result ≡ byte_before_is is_word_byte file.now at }
{
    match at {
        0 => false,
        _ => is_word_byte_at(file, at - 1),
    }
}

fn is_alphanumeric_before(file: &[u8], at: usize) -> bool
    ensures { result ≡ byte_before_is is_alphanumeric file.now at }
{
    match at {
        0 => false,
        _ => is_alphanumeric_at(file, at - 1),
    }
}

fn is_word_pair_at(file: &[u8], at: usize) -> bool
    requires { at < usize.MAX }
    ensures { result ≡ pair_is is_word_byte file.now at }
{
    is_word_byte_at(file, at) && is_zero_at(file, at + 1)
}

fn is_word_pair_before(file: &[u8], at: usize) -> bool
    ensures { result ≡ pair_before_is is_word_byte file.now at }
{
    match at {
        0 | 1 => false,
        _ => is_word_pair_at(file, at - 2),
    }
}

fn is_alphanumeric_pair_at(file: &[u8], at: usize) -> bool
    requires { at < usize.MAX }
    ensures { result ≡ pair_is is_alphanumeric file.now at }
{
    is_alphanumeric_at(file, at) && is_zero_at(file, at + 1)
}

fn is_alphanumeric_pair_before(file: &[u8], at: usize) -> bool
    ensures { result ≡ pair_before_is is_alphanumeric file.now at }
{
    match at {
        0 | 1 => false,
        _ => is_alphanumeric_pair_at(file, at - 2),
    }
}

/// Whether a word begins or ends at a place.
pub fn is_edge(file: &[u8], at: usize) -> bool
    ensures { result ≡ is_edge file.now at }
{
    is_word_byte_before(file, at) != is_word_byte_at(file, at)
}

/// Whether a word of two bytes a letter begins or ends at a place.
pub fn is_wide_edge(file: &[u8], at: usize) -> bool
    requires { at ≤ length file.now }
    ensures { result ≡ is_wide_edge file.now at }
{
    is_word_pair_before(file, at) != is_word_pair_at(file, at)
}

/// Whether a span may begin at a place, for what stands before it.
pub fn has_left_border(border: Border, file: &[u8], at: usize) -> bool
    ensures { result ≡ has_left_border border file.now at }
{
    match border {
        Border::Free => true,
        Border::Plain => !is_alphanumeric_before(file, at),
        Border::Wide => !is_alphanumeric_pair_before(file, at),
    }
}

/// Whether a span may end at a place, for what stands there.
pub fn has_right_border(border: Border, file: &[u8], at: usize) -> bool
    requires { at ≤ length file.now }
    ensures { result ≡ has_right_border border file.now at }
{
    match border {
        Border::Free => true,
        Border::Plain => !is_alphanumeric_at(file, at),
        Border::Wide => !is_alphanumeric_pair_at(file, at),
    }
}
