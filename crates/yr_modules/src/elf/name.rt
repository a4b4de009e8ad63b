//! The names of sections.

ghost use Rattle.std.specs.Prelude.{◌≡◌, ◌≤◌, length};
ghost use Rattle.std.specs.Option.{option_map};
ghost use Rattle.yr_modules.specs.Elf.Layout.{header_size};
ghost use Rattle.yr_modules.specs.Elf.Names.{section_name, text_at};

use crate::elf::layout::Layout;
use crate::elf::row::{E_SHSTRNDX, SH_NAME, SH_OFFSET};
use memchr::memchr;

// The bytes from a place up to the next 00.
fn text_at(file: &[u8], at: u128) -> Option<&[u8]>
    ensures { option_map (λ t. t.now) result ≡ text_at file.now at }
{
    if at >= file.len() as u128 {
        return None;
    }
    let rest = &file[at as usize..];
    let end = memchr(0, rest)?;
    Some(&rest[..end])
}

impl Layout {
    /// The name of a section, in the section that the ELF header names for it.
    pub(crate) fn section_name(self, file: &[u8], index: i64) -> Option<&[u8]>
        requires { header_size self.class ≤ length file.now }
        ensures { option_map (λ t. t.now) result ≡ section_name self file.now index }
    {
        let sections = self.sections(file);
        let at = sections.indexed_place(file.len(), index)?;
        let names = self.number_in(file, 0, E_SHSTRNDX);
        let strings = sections.place(file.len(), names)?;
        let from = self.number_in(file, strings, SH_OFFSET) as u128;
        text_at(file, from + self.number_in(file, at, SH_NAME) as u128)
    }
}
