use std::test::Fail;
use yr_base::Value;
use yr_modules::elf::{Elf, elf_names};
use yr_values::{ModuleEntry, ModuleNames, Modules};

// A file of 320 bytes, all 00 but its identification, these numbers (place, bytes, number), and these texts.
fn file(
    class: u8,
    order: u8,
    numbers: &[(usize, usize, u64)],
    texts: &[(usize, &[u8])],
) -> [u8; 320] {
    let mut bytes = [0; 320];
    put(&mut bytes, 0, &[0x7f, 0x45, 0x4c, 0x46, class, order, 1]);
    for (at, size, number) in numbers {
        put_number(&mut bytes, *at, *size, *number, order == 2);
    }
    for (at, text) in texts {
        put(&mut bytes, *at, text);
    }
    bytes
}

fn put(bytes: &mut [u8], at: usize, text: &[u8]) {
    for (k, b) in text.iter().enumerate() {
        if let Some(place) = bytes.get_mut(at.wrapping_add(k)) {
            *place = *b;
        }
    }
}

fn put_number(bytes: &mut [u8], at: usize, size: usize, number: u64, highest_first: bool) {
    for (k, b) in number.to_le_bytes().iter().enumerate() {
        if k < size {
            let k = if highest_first { size - 1 - k } else { k };
            if let Some(place) = bytes.get_mut(at.wrapping_add(k)) {
                *place = *b;
            }
        }
    }
}

fn number(file: &[u8], id: u16, index: i64) -> Option<i64> {
    match Elf::read(file).field(id, index) {
        Value::Number(n) => Some(n),
        _ => None,
    }
}

fn has_name(file: &[u8], index: i64, want: &[u8]) -> bool {
    match Elf::read(file).field(16, index) {
        Value::Text(text) => text == want,
        _ => false,
    }
}

fn has_no_name(file: &[u8], index: i64) -> bool {
    match Elf::read(file).field(16, index) {
        Value::Undefined => true,
        _ => false,
    }
}

// The first bytes of a file.
fn cut(file: &[u8], size: usize) -> &[u8] {
    match file.get(..size) {
        Some(front) => front,
        None => file,
    }
}

// A shared object for 32 bits: two segments, of which the second holds the entry point, and two sections.
fn narrow(order: u8) -> [u8; 320] {
    let numbers = [
        (16, 2, 3),
        (18, 2, 8),
        (24, 4, 0x401004),
        (28, 4, 52),
        (32, 4, 120),
        (42, 2, 32),
        (44, 2, 2),
        (46, 2, 40),
        (48, 2, 2),
        (50, 2, 1),
        (52, 4, 1),
        (56, 4, 0),
        (60, 4, 0x400000),
        (72, 4, 0x1004),
        (84, 4, 6),
        (88, 4, 256),
        (92, 4, 0x401000),
        (96, 4, 0x501000),
        (100, 4, 16),
        (104, 4, 32),
        (108, 4, 5),
        (112, 4, 4096),
        (160, 4, 1),
        (164, 4, 3),
        (168, 4, 2),
        (172, 4, 0xfffffff0),
        (176, 4, 200),
        (180, 4, 6),
    ];
    file(1, order, &numbers, &[(201, b"names")])
}

// The same for 64 bits, with numbers above the signed ones.
fn wide(order: u8) -> [u8; 320] {
    let numbers = [
        (16, 2, 3),
        (18, 2, 21),
        (24, 8, 0xffffffff80001004),
        (32, 8, 64),
        (40, 8, 176),
        (54, 2, 56),
        (56, 2, 2),
        (58, 2, 64),
        (60, 2, 2),
        (62, 2, 1),
        (64, 4, 1),
        (80, 8, 0xffffffff80000000),
        (104, 8, 0x1004),
        (120, 4, 6),
        (124, 4, 5),
        (128, 8, 0xfffffffffffffffe),
        (136, 8, 0xffffffff80001000),
        (144, 8, 7),
        (152, 8, 16),
        (160, 8, 32),
        (168, 8, 4096),
        (240, 4, 1),
        (244, 4, 3),
        (248, 8, 0x8000000000000000),
        (256, 8, 9),
        (264, 8, 304),
        (272, 8, 6),
    ];
    file(2, order, &numbers, &[(305, b"names")])
}

// The target of a rule as analysts write it: three sections, no segment.
fn sample() -> [u8; 320] {
    let numbers = [
        (16, 2, 2),
        (18, 2, 62),
        (20, 1, 1),
        (24, 8, 0x400000),
        (40, 8, 128),
        (52, 2, 64),
        (54, 2, 56),
        (58, 2, 64),
        (60, 2, 3),
        (62, 2, 2),
        (192, 4, 1),
        (196, 4, 1),
        (200, 8, 6),
        (208, 8, 0x400000),
        (216, 8, 64),
        (224, 8, 40),
        (256, 4, 7),
        (260, 4, 3),
        (280, 8, 104),
        (288, 8, 17),
    ];
    file(2, 1, &numbers, &[(105, b".text"), (111, b".shstrtab")])
}

// The file with one number changed, its lowest byte first.
fn changed(mut bytes: [u8; 320], at: usize, size: usize, number: u64) -> [u8; 320] {
    put_number(&mut bytes, at, size, number, false);
    bytes
}

// The number that a path of the first module leads to: a constant, or an id.
fn leads_to(names: &ModuleNames, path: &[u8]) -> Option<i64> {
    for row in &names.modules.first()?.rows {
        if row.path.as_slice() == path {
            return match row.entry {
                ModuleEntry::Constant(n) => Some(n),
                ModuleEntry::Field { id, .. } => Some(id as i64),
                ModuleEntry::Array { count } => Some(count as i64),
                ModuleEntry::Call { .. } => None,
            };
        }
    }
    None
}

// Ids, indexes and numbers of the file for 32 bits, and of that for 64 bits.
const NARROW: [(u16, i64, i64); 18] = [
    (1, 0, 3),
    (2, -1, 8),
    (3, 0, 260),
    (4, 0, 2),
    (5, 0, 2),
    (17, 1, 3),
    (18, 1, 2),
    (19, 1, 0xfffffff0),
    (20, 1, 200),
    (21, 1, 6),
    (32, 1, 6),
    (33, 1, 5),
    (34, 1, 256),
    (35, 1, 0x401000),
    (36, 1, 0x501000),
    (37, 1, 16),
    (38, 1, 32),
    (39, 1, 4096),
];

const WIDE: [(u16, i64, i64); 18] = [
    (1, 0, 3),
    (2, 7, 21),
    (3, 0, 2),
    (4, 0, 2),
    (5, 0, 2),
    (17, 1, 3),
    (18, 1, i64::MIN),
    (19, 1, 9),
    (20, 1, 304),
    (21, 1, 6),
    (32, 1, 6),
    (33, 1, 5),
    (34, 1, -2),
    (35, 1, -0x7ffff000),
    (36, 1, 7),
    (37, 1, 16),
    (38, 1, 32),
    (39, 1, 4096),
];

#[test]
fn fields(rt: HostRuntime) -> Result<(), Fail> {
    for order in [1, 2] {
        let narrow = narrow(order);
        for (id, index, want) in &NARROW {
            assert_eq!(rt;
                number(&narrow, *id, *index),
                Some(*want),
                "{id} for 32 bits in order {order}"
            );
        }
        let wide = wide(order);
        for (id, index, want) in &WIDE {
            assert_eq!(rt;
                number(&wide, *id, *index),
                Some(*want),
                "{id} for 64 bits in order {order}"
            );
        }
        assert!(rt; has_name(&narrow, 1, b"names"));
        assert!(rt; has_name(&wide, 1, b"names"));
        assert!(rt; has_name(cut(&wide, 311), 1, b"names"));
        assert!(rt; has_no_name(cut(&wide, 310), 1), "a name without its 00");
    }
    Ok(())
}

#[test]
fn hostile_headers(rt: HostRuntime) -> Result<(), Fail> {
    let header = file(2, 1, &[(16, 2, 2), (18, 2, 62)], &[]);
    let sample = sample();
    let narrow = narrow(1);
    let no_magic = changed(sample, 0, 1, 0x7e);
    let class_3 = changed(sample, 4, 1, 3);
    let order_0 = changed(sample, 5, 1, 0);
    let more = changed(sample, 60, 2, 5);
    let no_names = changed(sample, 62, 2, 3);
    let far = changed(sample, 280, 8, u64::MAX);
    let first = changed(narrow, 24, 4, 0x400003);
    let nowhere = changed(narrow, 24, 4, 0x401020);
    let other_size = changed(narrow, 42, 2, 33);
    let rows: [(&str, &[u8], u16, i64, Option<i64>); 28] = [
        ("a header alone", cut(&header, 64), 1, 0, Some(2)),
        ("without a section", cut(&header, 64), 21, 0, None),
        ("63 bytes of it", cut(&header, 63), 1, 0, None),
        ("51 bytes for 32 bits", cut(&narrow, 51), 1, 0, None),
        ("no magic", &no_magic, 1, 0, None),
        ("class 3", &class_3, 1, 0, None),
        ("order 0", &order_0, 1, 0, None),
        ("an empty file", cut(&sample, 0), 1, 0, None),
        ("no segment, no entry point", &sample, 3, 0, None),
        ("three sections", &sample, 4, 0, Some(3)),
        ("flags", &sample, 18, 1, Some(6)),
        ("section 3", &sample, 18, 3, None),
        ("section -1", &sample, 18, -1, None),
        ("the last section", &sample, 17, 2, Some(3)),
        ("the last section, cut", cut(&sample, 319), 17, 2, None),
        ("number of more sections", &more, 4, 0, Some(5)),
        ("the last in the file", &more, 17, 2, Some(3)),
        ("the next", &more, 17, 3, None),
        ("flags without names", &no_names, 18, 1, Some(6)),
        ("entry point in the first", &first, 3, 0, Some(3)),
        ("entry point in none", &nowhere, 3, 0, None),
        ("another entry size", &other_size, 32, 0, None),
        ("its entry point", &other_size, 3, 0, None),
        ("id 0", &sample, 0, 0, None),
        ("id 6", &sample, 6, 0, None),
        ("id 22", &sample, 22, 0, None),
        ("id 31", &narrow, 31, 0, None),
        ("id 40", &narrow, 40, 0, None),
    ];
    for (what, file, id, index, want) in &rows {
        assert_eq!(rt; number(file, *id, *index), *want, "{what}");
    }
    assert!(rt; has_name(&sample, 0, b""), "an empty name");
    assert!(rt; has_name(&sample, 1, b".text"));
    assert!(rt; has_name(&sample, 2, b".shstrtab"));
    assert!(rt; has_no_name(&sample, 3));
    assert!(rt; has_no_name(&no_names, 1), "names that cannot be read");
    assert!(rt; has_no_name(&far, 1), "places do not wrap");
    let names = elf_names(rt.alloc())?;
    assert_eq!(rt; leads_to(&names, b"ET_EXEC"), Some(2));
    assert_eq!(rt; leads_to(&names, b"PF_R"), Some(4));
    assert_eq!(rt; leads_to(&names, b"sections"), Some(4));
    assert_eq!(rt; leads_to(&names, b"sections[].name"), Some(16));
    assert_eq!(rt; leads_to(&names, b"segments[].alignment"), Some(39));
    assert_eq!(rt; leads_to(&names, b"segments[].name"), None);
    Ok(())
}
