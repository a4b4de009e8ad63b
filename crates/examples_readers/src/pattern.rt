//! Sets and patterns made by hand, and what becomes of them.

use std::alloc::Global;
use std::test::Fail;
use yr_base::{Border, NoMemory};
use yr_pattern::{ByteSet, Pattern, Variant, VariantBody, copy, fold, reverse, size, widen};

/// A pattern, and what is wanted of it.
#[derive(Drop)]
struct Row {
    pattern: Pattern,
    size: u64,
    reversed: Pattern,
    widened: Pattern,
    folded: Pattern,
}

fn byte(b: u8) -> Pattern {
    Pattern::One(ByteSet::one(b))
}

fn letter(b: u8) -> Pattern {
    Pattern::One(ByteSet::one(b).with(b.to_ascii_uppercase()))
}

fn both(alloc: Global, first: Pattern, second: Pattern) -> Result<Pattern, NoMemory> {
    Ok(Pattern::Seq(vec![in alloc; first, second]?))
}

fn either(alloc: Global, first: Pattern, second: Pattern) -> Result<Pattern, NoMemory> {
    Ok(Pattern::Alt(vec![in alloc; first, second]?))
}

fn repeated(
    alloc: Global,
    inner: Pattern,
    min: u32,
    max: Option<u32>,
) -> Result<Pattern, NoMemory> {
    let inner = Box::new(alloc, inner)?;
    Ok(Pattern::Rep { inner, min, max })
}

fn wide(alloc: Global, b: u8) -> Result<Pattern, NoMemory> {
    both(alloc, byte(b), byte(0))
}

/// `ab`
fn sequence(alloc: Global) -> Result<Row, NoMemory> {
    Ok(Row {
        pattern: both(alloc, byte(b'a'), byte(b'b'))?,
        size: 2,
        reversed: both(alloc, byte(b'b'), byte(b'a'))?,
        widened: both(alloc, wide(alloc, b'a')?, wide(alloc, b'b')?)?,
        folded: both(alloc, letter(b'a'), letter(b'b'))?,
    })
}

/// `a1|\b`
fn choice(alloc: Global) -> Result<Row, NoMemory> {
    Ok(Row {
        pattern: either(alloc, both(alloc, byte(b'a'), byte(b'1'))?, Pattern::Edge)?,
        size: 4,
        reversed: either(alloc, both(alloc, byte(b'1'), byte(b'a'))?, Pattern::Edge)?,
        widened: either(
            alloc,
            both(alloc, wide(alloc, b'a')?, wide(alloc, b'1')?)?,
            Pattern::WideEdge,
        )?,
        folded: either(alloc, both(alloc, letter(b'a'), byte(b'1'))?, Pattern::Edge)?,
    })
}

/// `(^\B){2,4}`
fn bounded(alloc: Global) -> Result<Row, NoMemory> {
    Ok(Row {
        pattern: repeated(
            alloc,
            both(alloc, Pattern::Start, Pattern::NotEdge)?,
            2,
            Some(4),
        )?,
        size: 10,
        reversed: repeated(
            alloc,
            both(alloc, Pattern::NotEdge, Pattern::Start)?,
            2,
            Some(4),
        )?,
        widened: repeated(
            alloc,
            both(alloc, Pattern::Start, Pattern::WideNotEdge)?,
            2,
            Some(4),
        )?,
        folded: repeated(
            alloc,
            both(alloc, Pattern::Start, Pattern::NotEdge)?,
            2,
            Some(4),
        )?,
    })
}

/// `(a|){3,}`
fn unbounded(alloc: Global) -> Result<Row, NoMemory> {
    Ok(Row {
        pattern: repeated(alloc, either(alloc, byte(b'a'), Pattern::Empty)?, 3, None)?,
        size: 9,
        reversed: repeated(alloc, either(alloc, byte(b'a'), Pattern::Empty)?, 3, None)?,
        widened: repeated(
            alloc,
            either(alloc, wide(alloc, b'a')?, Pattern::Empty)?,
            3,
            None,
        )?,
        folded: repeated(alloc, either(alloc, letter(b'a'), Pattern::Empty)?, 3, None)?,
    })
}

/// Whether each change of the row's pattern is as wanted.
fn is_changed_as_wanted(alloc: Global, row: &Row) -> Result<bool, NoMemory> {
    Ok(
        size(&row.pattern) == row.size
            && copy(alloc, &row.pattern)? == row.pattern
            && reverse(alloc, &row.pattern)? == row.reversed
            && widen(alloc, &row.pattern)? == row.widened
            && fold(alloc, &row.pattern)? == row.folded,
    )
}

/// A choice of nothing, a bound below the least number, and what has no size of 64 bits.
fn sizes_at_the_ends(alloc: Global) -> Result<[u64; 4], NoMemory> {
    let never = Pattern::Alt(Vec::new(alloc));
    let crossed = repeated(alloc, byte(b'a'), 3, Some(2))?;
    let large = repeated(alloc, byte(b'a'), 0, Some(u32::MAX))?;
    let large_size = size(&large);
    let larger = repeated(alloc, large, 0, Some(u32::MAX))?;
    Ok([size(&never), size(&crossed), large_size, size(&larger)])
}

/// The sizes of a literal and of a pattern as variants.
fn sizes_of_variants(alloc: Global) -> Result<[u64; 2], NoMemory> {
    let literal = Variant {
        body: VariantBody::Literal {
            bytes: vec![in alloc; b'a', b'b', b'c']?,
            key: 1,
            fold: false,
        },
        border: Border::Plain,
    };
    let shape = Variant {
        body: VariantBody::Shape(byte(b'a')),
        border: Border::Free,
    };
    Ok([literal.size(), shape.size()])
}

#[test]
fn changes_of_patterns(rt: HostRuntime) -> Result<(), Fail> {
    let alloc = rt.alloc();
    assert!(rt; is_changed_as_wanted(alloc, &sequence(alloc)?)?, "sequence");
    assert!(rt; is_changed_as_wanted(alloc, &choice(alloc)?)?, "choice");
    assert!(rt; is_changed_as_wanted(alloc, &bounded(alloc)?)?, "bounded");
    assert!(rt;
        is_changed_as_wanted(alloc, &unbounded(alloc)?)?,
        "unbounded"
    );
    assert_eq!(rt;
        sizes_at_the_ends(alloc)?,
        [1, 1, 2 * (u32::MAX as u64), u64::MAX]
    );
    assert_eq!(rt; sizes_of_variants(alloc)?, [3, 1]);
    Ok(())
}

#[test]
fn bytes_of_sets(rt: HostRuntime) {
    let digits = ByteSet::one(b'0').union(&ByteSet::one(b'7'));
    let rows = [
        (ByteSet::none(), [false, false, false, false]),
        (ByteSet::one(b'k'), [false, true, false, false]),
        (ByteSet::one(b'k').fold(), [false, true, true, false]),
        (ByteSet::one(b'K').fold(), [false, true, true, false]),
        (digits, [true, false, false, false]),
        (digits.complement(), [false, true, true, true]),
    ];
    for (set, wanted) in rows {
        let has = [b'7', b'k', b'K', 0xff].map(|b| set.contains(b));
        assert_eq!(rt; has, wanted);
    }
}
