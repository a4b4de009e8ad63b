//! Where the fields of the headers stand, by the names that the format gives them.

ghost use Rattle.std.specs.Prelude.{◌≡◌, ◌+◌, ◌≤◌, length};
ghost use Rattle.yr_modules.specs.Pe.Header.{bytes_in, number_at, number_in};

use byteorder::{ByteOrder, LittleEndian};

/// The size of a field: two bytes or four.
#[derive(Clone, Copy)]
pub(crate) enum Size {
    Half,
    Word,
}

/// The place of a field in its header, and its size.
#[derive(Clone, Copy)]
pub(crate) struct Row {
    pub(crate) place: u8,
    pub(crate) size: Size,
}

pub(crate) const MACHINE: Row = Row {
    place: 4,
    size: Size::Half,
};

pub(crate) const NUMBER_OF_SECTIONS: Row = Row {
    place: 6,
    size: Size::Half,
};

pub(crate) const TIMESTAMP: Row = Row {
    place: 8,
    size: Size::Word,
};

pub(crate) const SIZE_OF_OPTIONAL_HEADER: Row = Row {
    place: 20,
    size: Size::Half,
};

pub(crate) const CHARACTERISTICS: Row = Row {
    place: 22,
    size: Size::Half,
};

pub(crate) const VIRTUAL_SIZE: Row = Row {
    place: 8,
    size: Size::Word,
};

pub(crate) const VIRTUAL_ADDRESS: Row = Row {
    place: 12,
    size: Size::Word,
};

pub(crate) const RAW_DATA_SIZE: Row = Row {
    place: 16,
    size: Size::Word,
};

pub(crate) const RAW_DATA_OFFSET: Row = Row {
    place: 20,
    size: Size::Word,
};

pub(crate) const SECTION_CHARACTERISTICS: Row = Row {
    place: 36,
    size: Size::Word,
};

/// The number of a size at a place.
pub(crate) fn number_at(file: &[u8], at: usize, size: Size) -> u32
    requires { at + bytes_in size ≤ length file.now }
    ensures { result ≡ number_at file.now at size }
{
    let rest = &file[at..];
    match size {
        Size::Half => u32::from(LittleEndian::read_u16(rest)),
        Size::Word => LittleEndian::read_u32(rest),
    }
}

impl Row {
    /// The number in a field of the header that begins at a place.
    pub(crate) fn number_in(self, file: &[u8], at: usize) -> u32
        requires { at + self.place + bytes_in self.size ≤ length file.now }
        ensures { result ≡ number_in file.now at self }
    {
        number_at(file, at + self.place as usize, self.size)
    }
}
