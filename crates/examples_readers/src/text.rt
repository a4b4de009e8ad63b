//! Lists of modifiers with their faults, and texts with their variants.

ghost use Rattle.std.specs.Prelude.{◌<◌, length};

use std::alloc::Global;
use std::test::Fail;
use yr_base::{Border, NoMemory};
use yr_pattern::{Variant, VariantBody};
use yr_syntax::{Modifier, StringKind};
use yr_text::{ModifierFault, Modifiers, check_modifiers, variants};

/// What a list without a modifier says.
const PLAIN: Modifiers = Modifiers {
    nocase: false,
    wide: false,
    ascii: false,
    full: false,
    hidden: false,
    xor: None,
    base64: None,
    base64wide: None,
};

const USUAL: [u8; 64] = *b"ABCDEFGHIJKLMNOPQRSTUVWXYZabcdefghijklmnopqrstuvwxyz0123456789+/";

const OTHER: [u8; 64] = *b"abcdefghijklmnopqrstuvwxyzABCDEFGHIJKLMNOPQRSTUVWXYZ0123456789-_";

fn xor(low: i64, high: i64) -> Modifier {
    Modifier::Xor { low, high }
}

fn fault(first: Modifier, second: Modifier, kind: StringKind) -> Option<ModifierFault> {
    check_modifiers(&[first, second], kind).err()
}

/// The faults of the pairs of modifiers that exclude each other.
fn excluded_pairs() -> [Option<ModifierFault>; 7] {
    let text = StringKind::Text;
    [
        fault(Modifier::NoCase, xor(0, 255), text),
        fault(Modifier::Base64(None), Modifier::NoCase, text),
        fault(Modifier::NoCase, Modifier::Base64Wide(None), text),
        fault(Modifier::FullWord, Modifier::Base64(None), text),
        fault(Modifier::Base64Wide(None), Modifier::FullWord, text),
        fault(xor(0, 255), Modifier::Base64(None), text),
        fault(Modifier::Base64Wide(None), xor(0, 255), text),
    ]
}

/// The faults of pairs for strings of each kind.
fn pairs_by_kind() -> [Option<ModifierFault>; 7] {
    [
        fault(xor(1, 1), xor(2, 2), StringKind::Hex),
        fault(Modifier::Hidden, Modifier::Hidden, StringKind::Hex),
        fault(Modifier::Hidden, Modifier::Wide, StringKind::Hex),
        fault(xor(5, 4), Modifier::NoCase, StringKind::Regex),
        fault(Modifier::Base64(None), Modifier::Wide, StringKind::Regex),
        fault(Modifier::NoCase, Modifier::FullWord, StringKind::Regex),
        fault(Modifier::Base64(None), Modifier::Wide, StringKind::Text),
    ]
}

/// What `check_modifiers` answers for `xor` with some ranges.
fn ranges() -> [Result<Modifiers, ModifierFault>; 5] {
    let text = StringKind::Text;
    [
        check_modifiers(&[xor(5, 4)], text),
        check_modifiers(&[xor(-1, 3)], text),
        check_modifiers(&[xor(0, 256)], text),
        check_modifiers(&[xor(7, 7)], text),
        check_modifiers(&[xor(0, 255)], text),
    ]
}

/// What `check_modifiers` answers for two alphabets, and for one that is short.
fn alphabets(alloc: Global) -> Result<[Result<Modifiers, ModifierFault>; 2], NoMemory> {
    let mut other = Vec::new(alloc);
    other.extend_from_slice(&OTHER)?;
    let mut short = Vec::new(alloc);
    short.extend_from_slice(b"abc")?;
    Ok([
        check_modifiers(
            &[
                Modifier::Base64Wide(Some(other)),
                Modifier::Hidden,
                Modifier::Base64(None),
            ],
            StringKind::Text,
        ),
        check_modifiers(&[Modifier::Base64(Some(short))], StringKind::Text),
    ])
}

#[test]
fn lists_of_modifiers(rt: HostRuntime) -> Result<(), Fail> {
    let excluded = Some(ModifierFault::Excluded);
    assert_eq!(rt; excluded_pairs(), [excluded; 7]);
    assert_eq!(rt;
        pairs_by_kind(),
        [
            Some(ModifierFault::Repeated),
            Some(ModifierFault::Repeated),
            Some(ModifierFault::WrongKind),
            Some(ModifierFault::WrongKind),
            Some(ModifierFault::WrongKind),
            None,
            None,
        ]
    );
    let bad = Err(ModifierFault::BadRange);
    assert_eq!(rt;
        ranges(),
        [
            bad,
            bad,
            bad,
            Ok(Modifiers {
                xor: Some((7, 7)),
                ..PLAIN
            }),
            Ok(Modifiers {
                xor: Some((0, 255)),
                ..PLAIN
            }),
        ]
    );
    let both = Modifiers {
        hidden: true,
        base64: Some(USUAL),
        base64wide: Some(OTHER),
        ..PLAIN
    };
    assert_eq!(rt;
        alphabets(rt.alloc())?,
        [Ok(both), Err(ModifierFault::BadAlphabet)]
    );
    Ok(())
}

/// A variant as bytes: its text, its key, `i` where it folds, the first letter of its border, a line feed.
fn put_variant(line: &mut Vec<u8>, v: &Variant) -> Result<(), NoMemory> {
    let VariantBody::Literal { bytes, key, fold } = &v.body else {
        return Ok(());
    };
    line.extend_from_slice(bytes)?;
    line.push(*key)?;
    line.push(if *fold { b'i' } else { b'-' })?;
    line.push(match v.border {
        Border::Free => b'F',
        Border::Plain => b'P',
        Border::Wide => b'W',
    })?;
    line.push(b'\n')?;
    Ok(())
}

/// Whether the variants of a text are these, in this order.
fn has(alloc: Global, text: &[u8], modifiers: &Modifiers, wanted: &[u8]) -> Result<bool, NoMemory>
    requires { 0 < length text.now }
{
    let all = variants(alloc, text, modifiers)?;
    let mut lines = Vec::new(alloc);
    for v in &all {
        put_variant(&mut lines, v)?;
    }
    Ok(lines.as_slice() == wanted)
}

/// How many variants a text has.
fn count(alloc: Global, text: &[u8], modifiers: &Modifiers) -> Result<usize, NoMemory>
    requires { 0 < length text.now }
{
    let all = variants(alloc, text, modifiers)?;
    Ok(all.len())
}

fn plain_rows(alloc: Global) -> Result<[bool; 5], NoMemory> {
    let full = Modifiers {
        full: true,
        ..PLAIN
    };
    let both = Modifiers {
        full: true,
        wide: true,
        ascii: true,
        ..PLAIN
    };
    let wide = Modifiers {
        wide: true,
        nocase: true,
        ..PLAIN
    };
    let range = Modifiers {
        xor: Some((1, 3)),
        ..PLAIN
    };
    let wide_range = Modifiers {
        wide: true,
        ascii: true,
        xor: Some((254, 255)),
        ..PLAIN
    };
    Ok([
        has(alloc, b"domain", &full, b"domain\0-P\n")?,
        has(alloc, b"A", &both, b"A\0-P\nA\0\0-W\n")?,
        has(alloc, b"AB", &wide, b"A\0B\0\0iF\n")?,
        has(alloc, b"ab", &range, b"ab\x01-F\nab\x02-F\nab\x03-F\n")?,
        has(
            alloc,
            b"ab",
            &wide_range,
            b"ab\xfe-F\nab\xff-F\na\0b\0\xfe-F\na\0b\0\xff-F\n",
        )?,
    ])
}

/// Letters as the coder of RFC 4648 writes them for the text after 0, 1 and 2 other bytes, without those that hang on these.
fn base64_rows(alloc: Global) -> Result<[bool; 6], NoMemory> {
    let usual = Modifiers {
        base64: Some(USUAL),
        ..PLAIN
    };
    let wide = Modifiers {
        base64wide: Some(USUAL),
        ..PLAIN
    };
    let two = Modifiers {
        base64: Some(USUAL),
        base64wide: Some(OTHER),
        ..PLAIN
    };
    Ok([
        has(
            alloc,
            b"This program cannot",
            &usual,
            b"VGhpcyBwcm9ncmFtIGNhbm5vd\0-F\nRoaXMgcHJvZ3JhbSBjYW5ub3\0-F\nUaGlzIHByb2dyYW0gY2Fubm90\0-F\n",
        )?,
        has(alloc, b"a", &usual, b"Y\0-F\nh\0-F\n")?,
        has(
            alloc,
            b"foobar",
            &usual,
            b"Zm9vYmFy\0-F\nZvb2Jhc\0-F\nmb29iYX\0-F\n",
        )?,
        has(
            alloc,
            b"\xff\0\x80Z",
            &usual,
            b"/wCAW\0-F\n8AgF\0-F\n/AIBa\0-F\n",
        )?,
        has(alloc, b"fo", &wide, b"Z\0m\0\0-F\nZ\0v\0\0-F\nm\0b\0\0-F\n")?,
        has(alloc, b"a", &two, b"Y\0-F\nh\0-F\ny\0\0-F\nH\0\0-F\n")?,
    ])
}

fn counts(alloc: Global) -> Result<[usize; 2], NoMemory> {
    let keys = Modifiers {
        xor: Some((0, 255)),
        ascii: true,
        wide: true,
        ..PLAIN
    };
    let letters = Modifiers {
        base64: Some(USUAL),
        base64wide: Some(USUAL),
        ascii: true,
        wide: true,
        ..PLAIN
    };
    Ok([count(alloc, b"ab", &keys)?, count(alloc, b"ab", &letters)?])
}

#[test]
fn variants_of_texts(rt: HostRuntime) -> Result<(), Fail> {
    let alloc = rt.alloc();
    assert_eq!(rt; plain_rows(alloc)?, [true; 5]);
    assert_eq!(rt; base64_rows(alloc)?, [true; 6]);
    assert_eq!(rt; counts(alloc)?, [512, 12]);
    Ok(())
}
