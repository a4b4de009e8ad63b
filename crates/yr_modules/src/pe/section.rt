//! The section headers.

ghost use Rattle.std.specs.Prelude.{◌≡◌, ◌+◌, ◌≤◌, length, IfSome};
ghost use Rattle.yr_modules.specs.Pe.Header.{header_size};
ghost use Rattle.yr_modules.specs.Pe.Sections.{section_size, section_place, indexed_place, name_at};

use crate::pe::header::HEADER_SIZE;
use crate::pe::row::{NUMBER_OF_SECTIONS, SIZE_OF_OPTIONAL_HEADER};
use memchr::memchr;

/// The bytes of a section header.
const SECTION_SIZE: usize = 40;

/// The place of section header k, where it is one of the table and lies in the file.
pub(crate) fn section_place(file: &[u8], p: usize, k: u64) -> Option<usize>
    requires { p + header_size ≤ length file.now }
    ensures place { result ≡ section_place file.now p k }
    ensures within { IfSome result (λ at. at + section_size ≤ length file.now) }
{
    if k >= u64::from(NUMBER_OF_SECTIONS.number_in(file, p)) {
        return None;
    }
    let optional = SIZE_OF_OPTIONAL_HEADER.number_in(file, p) as usize;
    let at = p + HEADER_SIZE + optional + SECTION_SIZE * k as usize;
    if at + SECTION_SIZE > file.len() {
        return None;
    }
    Some(at)
}

/// The same by an index, which may be negative.
pub(crate) fn indexed_place(file: &[u8], p: usize, index: i64) -> Option<usize>
    requires { p + header_size ≤ length file.now }
    ensures place { result ≡ indexed_place file.now p index }
    ensures within { IfSome result (λ at. at + section_size ≤ length file.now) }
{
    if index < 0 {
        return None;
    }
    section_place(file, p, index as u64)
}

/// The name of the section whose header stands at a place.
pub(crate) fn name_at(file: &[u8], at: usize) -> &[u8]
    requires { at + section_size ≤ length file.now }
    ensures { result.now ≡ name_at file.now at }
{
    let name = &file[at..at + 8];
    match memchr(0, name) {
        Some(end) => &name[..end],
        None => name,
    }
}
