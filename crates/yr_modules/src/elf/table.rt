//! The tables of section headers and of program headers, and the places of their entries.

ghost use Rattle.std.specs.Prelude.{◌≡◌, ◌+◌, ◌≤◌, length, IfSome};
ghost use Rattle.yr_modules.specs.Elf.Layout.{header_size};
ghost use Rattle.yr_modules.specs.Elf.Entries.{sections_of, segments_of, entry_place, indexed_place};

use crate::elf::layout::Layout;
use crate::elf::row::{E_PHENTSIZE, E_PHNUM, E_PHOFF, E_SHENTSIZE, E_SHNUM, E_SHOFF};

/// A table of headers: what the ELF header states of it, and the size of such a header.
#[derive(Clone, Copy)]
pub(crate) struct Table {
    pub(crate) from: u64,
    pub(crate) stated_size: u64,
    pub(crate) count: u64,
    pub(crate) size: u64,
}

impl Table {
    /// The place of an entry that can be read in a file of `end` bytes.
    pub(crate) fn place(self, end: usize, k: u64) -> Option<usize>
        ensures place { result ≡ entry_place self end k }
        ensures within { IfSome result (λ at. at + self.size ≤ end) }
    {
        if k >= self.count || self.stated_size != self.size {
            return None;
        }
        let at = self.from as u128 + k as u128 * self.size as u128;
        if at + self.size as u128 > end as u128 {
            return None;
        }
        Some(at as usize)
    }

    /// The same by an index, which may be negative.
    pub(crate) fn indexed_place(self, end: usize, index: i64) -> Option<usize>
        ensures place { result ≡ indexed_place self end index }
        ensures within { IfSome result (λ at. at + self.size ≤ end) }
    {
        if index < 0 {
            return None;
        }
        self.place(end, index as u64)
    }
}

impl Layout {
    /// The section headers, as the ELF header states them.
    pub(crate) fn sections(self, file: &[u8]) -> Table
        requires { header_size self.class ≤ length file.now }
        ensures { result ≡ sections_of self file.now }
    {
        Table {
            from: self.number_in(file, 0, E_SHOFF),
            stated_size: self.number_in(file, 0, E_SHENTSIZE),
            count: self.number_in(file, 0, E_SHNUM),
            size: self.section_size(),
        }
    }

    /// The program headers, as the ELF header states them.
    pub(crate) fn segments(self, file: &[u8]) -> Table
        requires { header_size self.class ≤ length file.now }
        ensures { result ≡ segments_of self file.now }
    {
        Table {
            from: self.number_in(file, 0, E_PHOFF),
            stated_size: self.number_in(file, 0, E_PHENTSIZE),
            count: self.number_in(file, 0, E_PHNUM),
            size: self.segment_size(),
        }
    }
}
