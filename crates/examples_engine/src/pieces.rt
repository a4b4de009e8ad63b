//! Strings of some splits, and what they find.

use crate::images::{Piece, Side, atom, image};
use crate::scanning::said;
use std::alloc::Global;
use std::process::Abort;
use std::test::Fail;

/// A string's flags: its matches are the shortest, or the longest.
const LEAST: u32 = 0;

const GREATEST: u32 = 2;

fn found(alloc: Global, flags: u32, strings: &[&[Piece]], file: &str) -> Result<String, Fail> {
    let bytes = image(alloc, flags, strings, "3 1 0 0 0")?;
    said(alloc, &bytes, file)
}

// Strings without programs.
fn literals(rt: &impl Abort, alloc: Global) -> Result<(), Fail> {
    let ab = [atom("ab")];
    let aa = [atom("aa")];
    let last = [atom("b")];
    let word = [Piece {
        border: 1,
        after: Side::Literal("in"),
        ..atom("doma")
    }];
    let wide = [Piece {
        border: 2,
        ..atom("ab")
    }];
    let middle = [Piece {
        before: Side::Literal("a"),
        after: Side::Literal("d"),
        ..atom("bc")
    }];
    let first = [Piece {
        after: Side::Literal("ef"),
        ..atom("abcd")
    }];
    let second = [Piece {
        before: Side::Literal("a"),
        after: Side::Literal("f"),
        ..atom("bcde")
    }];
    let third = [Piece {
        before: Side::Literal("ab"),
        ..atom("cdef")
    }];
    let folded = [Piece {
        after: Side::Literal("C"),
        fold: 1,
        ..atom("ab")
    }];
    let keyed = [Piece {
        after: Side::Literal("A"),
        key: 0x20,
        ..atom("ab")
    }];
    for (pieces, file, wanted) in [
        (&ab, "xxabab", "2: 2+2 4+2"),
        (&ab, "x", "0:"),
        (&ab, "a", "0:"),
        (&ab, "", "0:"),
        (&ab, "aab", "1: 1+2"),
        (&ab, "......ab", "1: 6+2"),
        (&ab, ".......ab.", "1: 7+2"),
        (&ab, "........ab..", "1: 8+2"),
        (&ab, ".........ab", "1: 9+2"),
        (&aa, "aaaa", "3: 0+2 1+2 2+2"),
        (&last, "aaaaab", "1: 5+1"),
        (&word, "www.mydomain.com", "1:"),
        (&word, "www.my-domain.com", "1: 7+6"),
        (&wide, "ab ab\0a\0abc\0ab", "4: 0+2 3+2"),
        (&wide, "aba\0 ab", "2: 5+2"),
        (&middle, "abcdbcabc", "3: 0+4"),
        (&middle, "bcd", "1:"),
        (&middle, "abc", "1:"),
        (&first, "abcd.bcde.cdef", "1:"),
        (&second, "abcd.bcde.cdef", "1:"),
        (&third, "abcd.bcde.cdef", "1:"),
        (&third, "abcdef", "1: 0+6"),
        (&folded, "abc abC abd", "3: 0+3 4+3"),
        (&keyed, "aba abA", "2: 0+3"),
    ] {
        assert_eq!(rt;
            found(alloc, LEAST, &[pieces], file)?.as_str(),
            wanted,
            "in {file}"
        );
    }
    Ok(())
}

// Strings of several splits.
fn several(rt: &impl Abort, alloc: Global) -> Result<(), Fail> {
    let sixty_four = [
        Piece {
            after: Side::Literal("cyBwcm9ncmFtIGNhbm5vd"),
            ..atom("VGhp")
        },
        Piece {
            after: Side::Literal("cHJvZ3JhbSBjYW5ub3"),
            ..atom("RoaX")
        },
        Piece {
            after: Side::Literal("IHByb2dyYW0gY2Fubm90"),
            ..atom("UaGl")
        },
    ];
    let text = "VGhpcyBwcm9ncmFtIGNhbm5vdA==";
    assert_eq!(rt;
        found(alloc, LEAST, &[&sixty_four], text)?.as_str(),
        "1: 0+25"
    );
    let two = [
        atom("ab"),
        Piece {
            before: Side::Literal("a"),
            ..atom("bc")
        },
    ];
    let empty = [
        Piece {
            after: Side::Literal("x"),
            ..atom("")
        },
        atom("y"),
    ];
    for (flags, pieces, file, wanted) in [
        (LEAST, &two, "abcab", "3: 0+2 3+2"),
        (GREATEST, &two, "abcab", "3: 0+3 3+2"),
        (LEAST, &empty, "xyx", "5: 0+1 1+1 2+1"),
        (LEAST, &empty, "", "1:"),
    ] {
        assert_eq!(rt;
            found(alloc, flags, &[pieces], file)?.as_str(),
            wanted,
            "in {file}"
        );
    }
    let nothing = [atom("")];
    let ab = [atom("ab")];
    assert_eq!(rt; found(alloc, LEAST, &[&nothing], "")?.as_str(), "1:");
    assert_eq!(rt;
        found(alloc, LEAST, &[&nothing, &ab], "ab")?.as_str(),
        "4:: 0+2"
    );
    Ok(())
}

// Strings with programs on their sides.
fn programs(rt: &impl Abort, alloc: Global) -> Result<(), Fail> {
    let letters = [Piece {
        after: Side::Program(0),
        ..atom("a")
    }];
    let around = [Piece {
        before: Side::Program(0),
        after: Side::Program(0),
        ..atom("")
    }];
    let digit = [Piece {
        after: Side::Program(3),
        ..atom("ab")
    }];
    let start = [Piece {
        before: Side::Program(4),
        ..atom("ab")
    }];
    let after = [Piece {
        after: Side::Program(5),
        ..atom("b")
    }];
    let before = [Piece {
        before: Side::Program(5),
        ..atom("b")
    }];
    for (flags, pieces, file, wanted) in [
        (GREATEST, &letters, "baaa", "3: 1+3 2+2 3+1"),
        (LEAST, &letters, "baaa", "3: 1+1 2+1 3+1"),
        (GREATEST, &around, "baab", "5: 1+2 2+1"),
        (LEAST, &around, "baab", "5: 1+1 2+1"),
        (LEAST, &digit, "ab abx ab7", "3: 7+3"),
        (LEAST, &digit, "ab", "1:"),
        (LEAST, &start, "abab", "2: 0+2"),
        (LEAST, &after, "ab1", "1:"),
        (LEAST, &after, "ab12", "1: 1+3"),
        (LEAST, &before, "ab", "1:"),
        (LEAST, &before, "xxb", "1: 0+3"),
    ] {
        assert_eq!(rt;
            found(alloc, flags, &[pieces], file)?.as_str(),
            wanted,
            "in {file}"
        );
    }
    Ok(())
}

#[test]
fn strings_find_their_matches(rt: HostRuntime) -> Result<(), Fail> {
    let alloc = rt.alloc();
    literals(&rt, alloc)?;
    several(&rt, alloc)?;
    programs(&rt, alloc)
}
