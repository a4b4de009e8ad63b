//! The place of the headers.

ghost use Rattle.std.specs.Prelude.{◌≡◌, ◌+◌, ◌≤◌, length, IfSome};
ghost use Rattle.yr_modules.specs.Pe.Header.{signed_place, header_place, header_size};

use crate::pe::row::{Size, number_at};

/// The signature and the file header behind it, together.
pub(crate) const HEADER_SIZE: usize = 24;

// The place of the signature, where it and the file header lie in the file.
fn signed_place(file: &[u8], p: usize) -> Option<usize>
    ensures place { result ≡ signed_place file.now p }
    ensures within { IfSome result (λ p. p + header_size ≤ length file.now) }
{
    if p > file.len() || file.len() - p < HEADER_SIZE || !file[p..].starts_with(b"PE\0\0") {
        return None;
    }
    Some(p)
}

/// The place of the signature of a PE file. None where the file is no PE file.
pub(crate) fn header_place(file: &[u8]) -> Option<usize>
    ensures place { result ≡ header_place file.now }
    ensures within { IfSome result (λ p. p + header_size ≤ length file.now) }
{
    if file.len() < 64 || !file.starts_with(b"MZ") {
        return None;
    }
    signed_place(file, number_at(file, 60, Size::Word) as usize)
}
