//! Covers of small variants.

use std::alloc::Global;
use std::test::Fail;
use yr_atoms::{Split, cover};
use yr_base::{Border, NoMemory};
use yr_pattern::{ByteSet, Pattern, Variant, VariantBody};

// How many splits there are, how long the first atom is, and its first byte.
fn seen(splits: &[Split]) -> (usize, u8, u8) {
    match splits.first() {
        Some(split) => (splits.len(), split.atom.len, split.atom.bytes[0]),
        None => (0, 0, 0),
    }
}

fn of_literal(
    alloc: Global,
    text: &[u8],
    key: u8,
    fold: bool,
) -> Result<(usize, u8, u8), NoMemory> {
    let mut bytes = Vec::new(alloc);
    bytes.extend_from_slice(text)?;
    let v = Variant {
        body: VariantBody::Literal { bytes, key, fold },
        border: Border::Free,
    };
    let splits = cover(alloc, &v)?;
    Ok(seen(&splits))
}

fn of_shape(alloc: Global, pattern: Pattern) -> Result<(usize, u8, u8), NoMemory> {
    let v = Variant {
        body: VariantBody::Shape(pattern),
        border: Border::Free,
    };
    let splits = cover(alloc, &v)?;
    Ok(seen(&splits))
}

fn byte(b: u8) -> Pattern {
    Pattern::One(ByteSet::one(b))
}

fn bytes(alloc: Global, text: &[u8]) -> Result<Pattern, NoMemory> {
    let mut members = Vec::new(alloc);
    for b in text {
        members.push(byte(*b))?;
    }
    Ok(Pattern::Seq(members))
}

// `.(ab)c`, with the inner sequence in a sequence
fn nested(alloc: Global) -> Result<Pattern, NoMemory> {
    let any = Pattern::One(ByteSet::none().complement());
    let inner = bytes(alloc, b"ab")?;
    Ok(Pattern::Seq(vec![in alloc; any, inner, byte(b'c')]?))
}

// `(ab|cd)x`
fn branches(alloc: Global) -> Result<Pattern, NoMemory> {
    let all = vec![in alloc; bytes(alloc, b"ab")?, bytes(alloc, b"cd")?]?;
    Ok(Pattern::Seq(vec![in alloc; Pattern::Alt(all), byte(b'x')]?))
}

fn literals(alloc: Global) -> Result<[(usize, u8, u8); 6], NoMemory> {
    Ok([
        of_literal(alloc, b"abcdef", 0, false)?,
        of_literal(alloc, b"abcde", 0, true)?,
        of_literal(alloc, b"a1", 0, true)?,
        of_literal(alloc, b"1234", 0, true)?,
        of_literal(alloc, b"\0\0\0ab12", 0, true)?,
        of_literal(alloc, b"aaaa!!", 255, false)?,
    ])
}

fn shapes(alloc: Global) -> Result<[(usize, u8, u8); 4], NoMemory> {
    Ok([
        of_shape(alloc, nested(alloc)?)?,
        of_shape(alloc, branches(alloc)?)?,
        of_shape(alloc, bytes(alloc, b"\0\0\0\0zebra\0\0\0\0")?)?,
        of_shape(alloc, Pattern::Alt(Vec::new(alloc)))?,
    ])
}

#[test]
fn covers_of_literals(rt: HostRuntime) -> Result<(), Fail> {
    let wanted = [
        (1, 4, b'a'),
        (16, 4, b'a'),
        (2, 2, b'a'),
        (1, 4, b'1'),
        (4, 4, b'a'),
        (1, 4, b'a' ^ 255),
    ];
    assert_eq!(rt; literals(rt.alloc())?, wanted);
    Ok(())
}

#[test]
fn covers_of_shapes(rt: HostRuntime) -> Result<(), Fail> {
    let wanted = [(1, 3, b'a'), (1, 1, b'x'), (1, 4, b'z'), (1, 0, 0)];
    assert_eq!(rt; shapes(rt.alloc())?, wanted);
    Ok(())
}
