//! The class and the byte order of an ELF file.

ghost use Rattle.std.specs.Prelude.{◌≡◌, ◌≤◌, length, IfSome};
ghost use Rattle.yr_modules.specs.Elf.Layout.{class_with, order_with, header_size, layout_of, number_of};

use byteorder::{BigEndian, ByteOrder, LittleEndian};

const MAGIC: [u8; 4] = [0x7f, b'E', b'L', b'F'];

/// Whether the numbers of a file have up to 32 or up to 64 bits.
#[derive(Clone, Copy)]
pub(crate) enum Class {
    Bits32,
    Bits64,
}

/// Which byte of a number comes first.
#[derive(Clone, Copy)]
pub(crate) enum Order {
    LowestFirst,
    HighestFirst,
}

/// How the numbers of a file are laid out.
#[derive(Clone, Copy)]
pub(crate) struct Layout {
    pub(crate) class: Class,
    pub(crate) order: Order,
}

impl Class {
    fn with(byte: u8) -> Option<Class>
        ensures { result ≡ class_with byte }
    {
        match byte {
            1 => Some(Class::Bits32),
            2 => Some(Class::Bits64),
            _ => None,
        }
    }

    fn header_size(self) -> usize
        ensures { result ≡ header_size self }
    {
        match self {
            Class::Bits32 => 52,
            Class::Bits64 => 64,
        }
    }
}

impl Order {
    fn with(byte: u8) -> Option<Order>
        ensures { result ≡ order_with byte }
    {
        match byte {
            1 => Some(Order::LowestFirst),
            2 => Some(Order::HighestFirst),
            _ => None,
        }
    }

    /// The number in up to eight bytes.
    pub(crate) fn number(self, bytes: &[u8]) -> u64
        requires some { 1 ≤ length bytes.now }
        requires few { length bytes.now ≤ 8 }
        ensures { result ≡ number_of self bytes.now }
    {
        match self {
            Order::LowestFirst => LittleEndian::read_uint(bytes, bytes.len()),
            Order::HighestFirst => BigEndian::read_uint(bytes, bytes.len()),
        }
    }
}

impl Layout {
    /// The layout of an ELF file, none where the file is no ELF file.
    pub(crate) fn of(file: &[u8]) -> Option<Layout>
        ensures layout { result ≡ layout_of file.now }
        ensures within { IfSome result (λ l. header_size l.class ≤ length file.now) }
    {
        if !file.starts_with(&MAGIC) {
            return None;
        }
        let class = Class::with(*file.get(4)?)?;
        let order = Order::with(*file.get(5)?)?;
        if file.len() < class.header_size() {
            return None;
        }
        Some(Layout { class, order })
    }
}
