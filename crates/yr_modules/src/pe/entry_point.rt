//! Where in the file the entry point lies.

ghost use Rattle.std.specs.Prelude.{◌≡◌, ◌+◌, ◌≤◌, ◌<◌, ◌^◌, IfSome, IsTrue, length};
ghost use Rattle.yr_modules.specs.Pe.Header.{header_size, number_in, number_of_sections};
ghost use Rattle.yr_modules.specs.Pe.Sections.{section_size};
ghost use Rattle.yr_modules.specs.Pe.EntryPoint.{has_entry_point, place_of_address, place_in_section, first_below, entry_point};

use crate::pe::row::{
    NUMBER_OF_SECTIONS, RAW_DATA_OFFSET, SIZE_OF_OPTIONAL_HEADER, Size, VIRTUAL_ADDRESS,
    VIRTUAL_SIZE, number_at,
};
use crate::pe::section::section_place;

// Whether the optional header has an entry point, and is one of the two forms that there are.
fn has_entry_point(file: &[u8], p: usize) -> bool
    requires { p + header_size ≤ length file.now }
    ensures value { result ≡ has_entry_point file.now p }
    ensures inside { IsTrue result → p + 44 ≤ length file.now }
{
    if SIZE_OF_OPTIONAL_HEADER.number_in(file, p) < 20 || file.len() - p < 44 {
        return false;
    }
    let magic = number_at(file, p + 24, Size::Half);
    magic == 0x10b || magic == 0x20b
}

// The place in the file of an address in the section whose header stands at a place.
fn place_of_address(file: &[u8], address: u32, at: usize) -> Option<u64>
    requires { at + section_size ≤ length file.now }
    ensures place { result ≡ place_of_address file.now address at }
    ensures small { IfSome result (λ n. n < 2 ^ 63) }
{
    let low = VIRTUAL_ADDRESS.number_in(file, at);
    let size = VIRTUAL_SIZE.number_in(file, at);
    if low <= address && address - low < size {
        let offset = RAW_DATA_OFFSET.number_in(file, at);
        Some(u64::from(offset) + u64::from(address - low))
    } else {
        None
    }
}

fn place_in_section(file: &[u8], p: usize, address: u32, k: u64) -> Option<u64>
    requires { p + header_size ≤ length file.now }
    ensures place { result ≡ place_in_section file.now p address k }
    ensures small { IfSome result (λ n. n < 2 ^ 63) }
{
    let at = section_place(file, p, k)?;
    place_of_address(file, address, at)
}

// The place of an address, by the first section whose memory holds it.
fn first_place(file: &[u8], p: usize, address: u32) -> Option<u64>
    requires { p + header_size ≤ length file.now }
    ensures small { IfSome result (λ n. n < 2 ^ 63) }
    ensures place { result ≡ first_below (place_in_section file.now p address) (number_in file.now p number_of_sections) }
{
    let count = u64::from(NUMBER_OF_SECTIONS.number_in(file, p));
    for k in 0..count {
        if let Some(place) = place_in_section(file, p, address, k) {
            return Some(place);
        }
    }
    None
}

/// The place of the entry point.
pub(crate) fn entry_point(file: &[u8], p: usize) -> Option<u64>
    requires { p + header_size ≤ length file.now }
    ensures place { result ≡ entry_point file.now p }
    ensures small { IfSome result (λ n. n < 2 ^ 63) }
{
    if !has_entry_point(file, p) {
        return None;
    }
    first_place(file, p, number_at(file, p + 40, Size::Word))
}
