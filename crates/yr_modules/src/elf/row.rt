//! Where the fields of the headers stand, by the names that the standard gives them.

ghost use Rattle.std.specs.Prelude.{◌≡◌, ◌+◌, ◌≤◌, length};
ghost use Rattle.yr_modules.specs.Elf.Rows.{bytes_in, place_in, end_in, number_in, section_size, segment_size};

use crate::elf::layout::{Class, Layout};

/// The size of a field: two bytes, four, or four and eight by the class.
#[derive(Clone, Copy)]
pub(crate) enum Size {
    Half,
    Word,
    Native,
}

/// The places of a field in its header for 32 and for 64 bits, and its size.
#[derive(Clone, Copy)]
pub(crate) struct Row(pub(crate) u8, pub(crate) u8, pub(crate) Size);

pub(crate) const E_TYPE: Row = Row(16, 16, Size::Half);

pub(crate) const E_MACHINE: Row = Row(18, 18, Size::Half);

pub(crate) const E_ENTRY: Row = Row(24, 24, Size::Native);

pub(crate) const E_PHOFF: Row = Row(28, 32, Size::Native);

pub(crate) const E_SHOFF: Row = Row(32, 40, Size::Native);

pub(crate) const E_PHENTSIZE: Row = Row(42, 54, Size::Half);

pub(crate) const E_PHNUM: Row = Row(44, 56, Size::Half);

pub(crate) const E_SHENTSIZE: Row = Row(46, 58, Size::Half);

pub(crate) const E_SHNUM: Row = Row(48, 60, Size::Half);

pub(crate) const E_SHSTRNDX: Row = Row(50, 62, Size::Half);

pub(crate) const SH_NAME: Row = Row(0, 0, Size::Word);

pub(crate) const SH_TYPE: Row = Row(4, 4, Size::Word);

pub(crate) const SH_FLAGS: Row = Row(8, 8, Size::Native);

pub(crate) const SH_ADDR: Row = Row(12, 16, Size::Native);

pub(crate) const SH_OFFSET: Row = Row(16, 24, Size::Native);

pub(crate) const SH_SIZE: Row = Row(20, 32, Size::Native);

pub(crate) const P_TYPE: Row = Row(0, 0, Size::Word);

pub(crate) const P_FLAGS: Row = Row(24, 4, Size::Word);

pub(crate) const P_OFFSET: Row = Row(4, 8, Size::Native);

pub(crate) const P_VADDR: Row = Row(8, 16, Size::Native);

pub(crate) const P_PADDR: Row = Row(12, 24, Size::Native);

pub(crate) const P_FILESZ: Row = Row(16, 32, Size::Native);

pub(crate) const P_MEMSZ: Row = Row(20, 40, Size::Native);

pub(crate) const P_ALIGN: Row = Row(28, 48, Size::Native);

impl Row {
    fn place_in(self, class: Class) -> usize
        ensures { result ≡ place_in class self }
    {
        match class {
            Class::Bits32 => self.0 as usize,
            Class::Bits64 => self.1 as usize,
        }
    }

    fn bytes_in(self, class: Class) -> usize
        ensures value { result ≡ bytes_in class self.2 }
        ensures some { 1 ≤ result }
        ensures few { result ≤ 8 }
    {
        match (self.2, class) {
            (Size::Half, _) => 2,
            (Size::Word, _) => 4,
            (Size::Native, Class::Bits32) => 4,
            (Size::Native, Class::Bits64) => 8,
        }
    }
}

impl Layout {
    /// The number in a field of the header that begins at a place.
    pub(crate) fn number_in(self, file: &[u8], at: usize, row: Row) -> u64
        requires { at + end_in self.class row ≤ length file.now }
        ensures { result ≡ number_in self file.now at row }
    {
        let from = at + row.place_in(self.class);
        let to = from + row.bytes_in(self.class);
        self.order.number(&file[from..to])
    }

    pub(crate) fn section_size(self) -> u64
        ensures { result ≡ section_size self.class }
    {
        match self.class {
            Class::Bits32 => 40,
            Class::Bits64 => 64,
        }
    }

    pub(crate) fn segment_size(self) -> u64
        ensures { result ≡ segment_size self.class }
    {
        match self.class {
            Class::Bits32 => 32,
            Class::Bits64 => 56,
        }
    }
}
