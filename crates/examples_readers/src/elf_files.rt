//! ELF files of the machine, where they are there.

use std::alloc::Global;
use std::test::Fail;
use yr_base::{DiskStore, ReadAnswer, Store, Value};
use yr_modules::elf::Elf;
use yr_values::Modules;

/// How long a file may be at most: 64 MiB.
const LIMIT: u32 = 67_108_864;

/// Executables and libraries that many machines have.
const NAMES: [&str; 12] = [
    "/proc/self/exe",
    "/bin/sh",
    "/bin/ls",
    "/usr/bin/env",
    "/usr/bin/perl",
    "/usr/bin/python3",
    "/lib64/ld-linux-x86-64.so.2",
    "/lib64/libc.so.6",
    "/lib/x86_64-linux-gnu/libc.so.6",
    "/lib/x86_64-linux-gnu/libm.so.6",
    "/lib/aarch64-linux-gnu/libc.so.6",
    "/lib/ld-musl-x86_64.so.1",
];

const TYPE: u16 = 1;

const MACHINE: u16 = 2;

const ENTRY_POINT: u16 = 3;

const SECTION_COUNT: u16 = 4;

const SEGMENT_COUNT: u16 = 5;

const SECTION_NAME: u16 = 16;

const SEGMENT_TYPE: u16 = 32;

/// The bytes of a file, none where it can't be read or is too long.
fn content(alloc: Global, store: &mut impl Store, name: &str) -> Option<Vec<u8>> {
    let mut bytes = Vec::new(alloc);
    match store.read_file(alloc, name, LIMIT, &mut bytes) {
        ReadAnswer::Done => Some(bytes),
        _ => None,
    }
}

/// A number field.
fn number(elf: &Elf, id: u16, index: i64) -> Option<i64> {
    match elf.field(id, index) {
        Value::Number(number) => Some(number),
        _ => None,
    }
}

fn is_undefined(elf: &Elf, id: u16, index: i64) -> bool {
    match elf.field(id, index) {
        Value::Undefined => true,
        _ => false,
    }
}

/// The two bytes at a place, the lowest first.
fn half(file: &[u8], at: usize) -> Option<u16> {
    match file.get(at..)? {
        [low, high, ..] => Some(u16::from_le_bytes([*low, *high])),
        _ => None,
    }
}

/// The eight bytes at a place, the lowest first.
fn whole(file: &[u8], at: u64) -> Option<u64> {
    match file.get(at as usize..)? {
        [a, b, c, d, e, f, g, h, ..] => {
            Some(u64::from_le_bytes([*a, *b, *c, *d, *e, *f, *g, *h]))
        }
        _ => None,
    }
}

/// Whether the numbers of a file have up to 64 bits, the lowest byte first.
fn is_wide(file: &[u8]) -> bool {
    match file {
        [0x7f, b'E', b'L', b'F', 2, 1, ..] => true,
        _ => false,
    }
}

/// Whether a field of the ELF header is there and, in a file of 64 bits, is the number at this place.
fn header_agrees(elf: &Elf, file: &[u8], id: u16, at: usize) -> bool {
    let given = number(elf, id, 0);
    given.is_some() && (!is_wide(file) || given == half(file, at).map(|n| n as i64))
}

/// Whether type, machine and the numbers of segments and sections are those of the header, and the type is that of
/// an executable or a shared object.
fn headers_agree(elf: &Elf, file: &[u8]) -> bool {
    let kind = number(elf, TYPE, 0);
    (kind == Some(2) || kind == Some(3))
        && header_agrees(elf, file, TYPE, 16)
        && header_agrees(elf, file, MACHINE, 18)
        && header_agrees(elf, file, SEGMENT_COUNT, 56)
        && header_agrees(elf, file, SECTION_COUNT, 60)
}

/// Whether the address of the entry in the header is not 0.
fn has_entry(file: &[u8]) -> bool {
    let places = if is_wide(file) { 24..32 } else { 24..28 };
    match file.get(places) {
        Some(bytes) => bytes.iter().any(|byte| *byte != 0),
        None => false,
    }
}

/// Whether the entry point lies in the file, if there are an entry and segments.
fn entry_point_agrees(elf: &Elf, file: &[u8]) -> bool {
    if !has_entry(file) || number(elf, SEGMENT_COUNT, 0) == Some(0) {
        return true;
    }
    match number(elf, ENTRY_POINT, 0) {
        Some(place) => 0 <= place && (place as u64) < file.len() as u64,
        None => false,
    }
}

/// Where a file of 64 bits says that the section with the names of the sections ends, if this section is not empty.
fn end_of_names(file: &[u8]) -> Option<u64> {
    let before = 64 * half(file, 62)? as u64;
    let header = whole(file, 40)?.checked_add(before)?;
    let offset = whole(file, header.checked_add(24)?)?;
    let size = whole(file, header.checked_add(32)?)?;
    if size == 0 {
        return None;
    }
    offset.checked_add(size)
}

/// Whether a file of 64 bits has the section with the names of the sections, and this lies in the file.
fn has_names(file: &[u8]) -> bool {
    match end_of_names(file) {
        Some(end) => is_wide(file) && end <= file.len() as u64,
        None => false,
    }
}

/// Whether each section below a count has a name, and the first has the empty name.
fn names_are_there(elf: &Elf, count: i64) -> bool {
    for index in 0..count {
        match elf.field(SECTION_NAME, index) {
            Value::Text(name) if 0 < index || name.is_empty() => {}
            _ => return false,
        }
    }
    true
}

/// Whether the sections have names, and there is none before the first nor after the last.
fn names_agree(elf: &Elf, file: &[u8]) -> bool {
    let Some(count) = number(elf, SECTION_COUNT, 0) else {
        return false;
    };
    is_undefined(elf, SECTION_NAME, -1)
        && is_undefined(elf, SECTION_NAME, count)
        && (!has_names(file) || names_are_there(elf, count))
}

/// Whether each segment below a count has a type.
fn types_are_there(elf: &Elf, count: i64) -> bool {
    for index in 0..count {
        if number(elf, SEGMENT_TYPE, index).is_none() {
            return false;
        }
    }
    true
}

/// Whether the segments have types, and there is none before the first nor after the last.
fn segments_agree(elf: &Elf) -> bool {
    match number(elf, SEGMENT_COUNT, 0) {
        Some(count) => {
            is_undefined(elf, SEGMENT_TYPE, -1)
                && is_undefined(elf, SEGMENT_TYPE, count)
                && types_are_there(elf, count)
        }
        None => false,
    }
}

/// What is not as in every ELF file that a machine runs, if anything is.
fn difference(file: &[u8]) -> Option<&'static str> {
    let elf = Elf::read(file);
    if !file.starts_with(b"\x7fELF") {
        return (!is_undefined(&elf, TYPE, 0)).then_some("not an ELF file");
    }
    if !headers_agree(&elf, file) {
        Some("header")
    } else if !entry_point_agrees(&elf, file) {
        Some("entry point")
    } else if !names_agree(&elf, file) {
        Some("sections")
    } else if !segments_agree(&elf) {
        Some("segments")
    } else {
        None
    }
}

/// It passes on a machine that has none of the files.
#[test]
fn files_of_the_machine(rt: HostRuntime) -> Result<(), Fail> {
    let alloc = rt.alloc();
    let mut store = DiskStore::new(rt.clone()?);
    for name in NAMES {
        if let Some(file) = content(alloc, &mut store, name) {
            assert_eq!(rt; difference(&file), None, "{name}");
        }
    }
    Ok(())
}
