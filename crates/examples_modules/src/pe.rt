use std::test::Fail;
use yr_base::Value;
use yr_modules::pe::{WithPe, pe_names};
use yr_values::Modules;

/// A module whose fields and calls are numbers that tell what was asked.
#[derive(Drop)]
struct Echo;

impl Modules for Echo {
    ghost use Rattle.std.specs.Prelude.{Some};
    ghost use Rattle.yr_base.specs.declared.value.Kind.TheVariants as kind;
    ghost use Rattle.yr_values.specs.Values.{Number};

    ghost field_of = { λ e id index. Number index };

    ghost call_of = { λ e id from size. Number from };

    ghost field_kind = { λ id. Some kind.Number };

    ghost call_kind = { λ id. Some kind.Number };

    fn field(&self, _id: u16, index: i64) -> Value<'_> {
        Value::Number(index)
    }

    fn call(&self, _id: u16, from: i64, _size: i64) -> Value<'_> {
        Value::Number(from)
    }
}

// A file of 300 bytes, all 00 but these, each with its place. The signature stands at 40, and one section header at 6c.
fn file() -> [u8; 300] {
    let mut bytes = [0; 300];
    put(&mut bytes, 0, b"MZ");
    put(&mut bytes, 0x3c, &[0x40]);
    put(&mut bytes, 0x40, b"PE\0\0\x4c\x01\x01");
    put(&mut bytes, 0x54, &[0x14, 0, 2]);
    put(&mut bytes, 0x58, &[0x0b, 1]);
    put(&mut bytes, 0x68, &[0x10, 0x10]);
    put(&mut bytes, 0x6c, b".text");
    put(&mut bytes, 0x74, &[0, 1]);
    put(&mut bytes, 0x78, &[0, 0x10]);
    put(&mut bytes, 0x7c, &[0, 2]);
    put(&mut bytes, 0x80, &[0, 2]);
    put(&mut bytes, 0x90, &[0x20, 0, 0, 0x60]);
    bytes
}

fn put(bytes: &mut [u8], at: usize, text: &[u8]) {
    for (k, b) in text.iter().enumerate() {
        if let Some(place) = bytes.get_mut(at.wrapping_add(k)) {
            *place = *b;
        }
    }
}

// The same with a second section before it, which does not hold the entry point, and the other form of the optional header.
fn two_sections() -> [u8; 300] {
    let mut bytes = file();
    put(&mut bytes, 0x46, &[2]);
    put(&mut bytes, 0x59, &[2]);
    put(&mut bytes, 0x6c, b"8letters");
    put(&mut bytes, 0x78, &[0, 0x20]);
    put(&mut bytes, 0x94, b".code");
    put(&mut bytes, 0x9c, &[0x11, 0]);
    put(&mut bytes, 0xa0, &[0, 0x10]);
    put(&mut bytes, 0xa8, &[0x77]);
    bytes
}

// The first bytes of a file.
fn cut(file: &[u8], size: usize) -> &[u8] {
    match file.get(..size) {
        Some(front) => front,
        None => file,
    }
}

fn number(file: &[u8], id: u16, index: i64) -> Option<i64> {
    match WithPe::over(Echo, file).field(id, index) {
        Value::Number(n) => Some(n),
        _ => None,
    }
}

fn has_name(file: &[u8], index: i64, want: &[u8]) -> bool {
    match WithPe::over(Echo, file).field(96, index) {
        Value::Text(text) => text == want,
        _ => false,
    }
}

#[test]
fn reads_the_fields_of_headers(rt: HostRuntime) -> Result<(), Fail> {
    let whole = file();
    let two = two_sections();
    let rows: [(&[u8], u16, i64, Option<i64>); 25] = [
        (cut(&whole, 148), 80, 0, Some(0x14c)),
        (cut(&whole, 148), 81, 9, Some(1)),
        (cut(&whole, 148), 82, 0, Some(0)),
        (cut(&whole, 148), 83, 0, Some(2)),
        (cut(&whole, 148), 84, 0, Some(0x210)),
        (cut(&whole, 148), 97, 0, Some(0x1000)),
        (cut(&whole, 148), 98, 0, Some(0x100)),
        (cut(&whole, 148), 99, 0, Some(0x200)),
        (cut(&whole, 148), 100, 0, Some(0x200)),
        (cut(&whole, 148), 101, 0, Some(0x6000_0020)),
        (cut(&whole, 148), 101, 1, None),
        (cut(&whole, 148), 101, -1, None),
        (cut(&whole, 147), 80, 0, Some(0x14c)),
        (cut(&whole, 147), 84, 0, None),
        (cut(&whole, 147), 101, 0, None),
        (cut(&whole, 88), 81, 0, Some(1)),
        (cut(&whole, 87), 80, 0, None),
        (cut(&whole, 63), 80, 0, None),
        (&two, 84, 0, Some(0x87)),
        (&two, 97, 1, Some(0x1000)),
        (&two, 81, 0, Some(2)),
        (b"MZ", 80, 0, None),
        (&whole, 85, 7, Some(7)),
        (&whole, 95, 6, Some(6)),
        (&whole, 102, 5, Some(5)),
    ];
    for (file, id, index, want) in rows {
        assert_eq!(rt; number(file, id, index), want, "{id} at {index}");
    }
    assert_eq!(rt; has_name(&whole, 0, b".text"), true);
    assert_eq!(rt; has_name(&two, 0, b"8letters"), true);
    assert_eq!(rt; has_name(&two, 1, b".code"), true);
    let names = pe_names(rt.alloc()).map_err(|_| std::alloc::AllocError)?;
    assert_eq!(rt; names.modules.len(), 1);
    Ok(())
}
