//! Programs by hand: ends, starts and occurrences.

ghost use Rattle.std.specs.Prelude.{◌≡◌, ◌<◌, ◌≤◌, ◌^◌, length};
ghost use Rattle.yr_moves.specs.Programs.{moves_of, IsWellformed};
ghost use Rattle.yr_moves.specs.Walks.{IsMidway};

use std::alloc::{AllocError, Global};
use std::marker::Brand;
use std::process::Abort;
use std::sync::ledger::{Blank, Ledger};
use std::test::Fail;
use yr_base::{Border, Steps};
use yr_moves::{Marks, ProgramRows, StartWalk, best_end, occurs, starts};
use yr_rows::{Assertion, Move};

const ROOM: u32 = 16;

const LEAST: bool = false;

const GREATEST: bool = true;

const FREE: Border = Border::Free;

const PLAIN: Border = Border::Plain;

const WIDE: Border = Border::Wide;

// Moves, and the bytes of each of their sets.
#[derive(Clone, Copy)]
struct Program {
    moves: &'static [Move],
    texts: &'static [&'static str],
}

// (a*)+
const STARS: Program = Program {
    moves: &[
        Move::Fork { next: 1, other: 2 },
        Move::Set { next: 0, set: 0 },
        Move::Fork { next: 0, other: 3 },
        Move::Accept,
    ],
    texts: &["a"],
};

// Forks that lead nowhere.
const CIRCLE: Program = Program {
    moves: &[
        Move::Fork { next: 0, other: 1 },
        Move::Fork { next: 0, other: 1 },
    ],
    texts: &[],
};

// 01 ~?2 ( 03 | 04 [1-2] 05 ), with some of the bytes that are not ?2.
const HEX: Program = Program {
    moves: &[
        Move::Set { next: 1, set: 0 },
        Move::Set { next: 2, set: 1 },
        Move::Fork { next: 3, other: 4 },
        Move::Set { next: 9, set: 2 },
        Move::Set { next: 5, set: 3 },
        Move::Set { next: 6, set: 1 },
        Move::Fork { next: 7, other: 8 },
        Move::Set { next: 8, set: 1 },
        Move::Set { next: 9, set: 4 },
        Move::Accept,
    ],
    texts: &["\x01", "\x00\x13\x04", "\x03", "\x04", "\x05"],
};

// x{2,3}y?
const RANGE: Program = Program {
    moves: &[
        Move::Set { next: 1, set: 0 },
        Move::Set { next: 2, set: 0 },
        Move::Fork { next: 3, other: 4 },
        Move::Set { next: 4, set: 0 },
        Move::Fork { next: 5, other: 6 },
        Move::Set { next: 6, set: 1 },
        Move::Accept,
    ],
    texts: &["x", "y"],
};

// a( b)?
const WORD: Program = Program {
    moves: &[
        Move::Set { next: 1, set: 0 },
        Move::Fork { next: 2, other: 4 },
        Move::Set { next: 3, set: 1 },
        Move::Set { next: 4, set: 2 },
        Move::Accept,
    ],
    texts: &["a", " ", "b"],
};

// a, in two bytes
const LETTER: Program = Program {
    moves: &[
        Move::Set { next: 1, set: 0 },
        Move::Set { next: 2, set: 1 },
        Move::Accept,
    ],
    texts: &["a", "\0"],
};

// a, in two bytes, and an edge after it
const EDGE: Program = Program {
    moves: &[
        Move::Set { next: 1, set: 0 },
        Move::Set { next: 2, set: 1 },
        Move::Test {
            assertion: Assertion::WideEdge,
            next: 3,
        },
        Move::Accept,
    ],
    texts: &["a", "\0"],
};

// a, in two bytes, and no edge after it
const NO_EDGE: Program = Program {
    moves: &[
        Move::Set { next: 1, set: 0 },
        Move::Set { next: 2, set: 1 },
        Move::Test {
            assertion: Assertion::WideNotEdge,
            next: 3,
        },
        Move::Accept,
    ],
    texts: &["a", "\0"],
};

// ^a, read backwards
const AT_START: Program = Program {
    moves: &[
        Move::Set { next: 1, set: 0 },
        Move::Test {
            assertion: Assertion::Start,
            next: 2,
        },
        Move::Accept,
    ],
    texts: &["a"],
};

// a$, read backwards
const AT_END: Program = Program {
    moves: &[
        Move::Test {
            assertion: Assertion::End,
            next: 1,
        },
        Move::Set { next: 2, set: 0 },
        Move::Accept,
    ],
    texts: &["a"],
};

// a+, either way
const SOME: Program = Program {
    moves: &[
        Move::Set { next: 1, set: 0 },
        Move::Fork { next: 0, other: 2 },
        Move::Accept,
    ],
    texts: &["a"],
};

// xy
const PAIR: Program = Program {
    moves: &[
        Move::Set { next: 1, set: 0 },
        Move::Set { next: 2, set: 1 },
        Move::Accept,
    ],
    texts: &["x", "y"],
};

// A place that is no edge.
const INNER: Program = Program {
    moves: &[
        Move::Test {
            assertion: Assertion::NotEdge,
            next: 1,
        },
        Move::Accept,
    ],
    texts: &[],
};

fn moves_of(alloc: Global, moves: &[Move]) -> Result<Vec<u8>, AllocError> {
    let mut bytes = Vec::new(alloc);
    for v in moves {
        let row = v.row();
        for number in [row.kind, row.next, row.other, row.set] {
            bytes.extend_from_slice(&number.to_le_bytes())?;
        }
    }
    Ok(bytes)
}

// Sets of the bytes that stand in each text.
fn sets_of(alloc: Global, texts: &[&str]) -> Result<Vec<u8>, AllocError> {
    let mut bytes = Vec::new(alloc);
    for text in texts {
        let mut bits = [0u8; 32];
        for b in text.as_bytes() {
            bits[*b as usize / 8] |= 1 << (*b % 8);
        }
        bytes.extend_from_slice(&bits)?;
    }
    Ok(bytes)
}

fn end_of<L: Ledger>(
    blank: Blank,
    rows: ProgramRows<'_>,
    file: &[u8],
    at: u32,
    least: u32,
    greedy: bool,
    border: Border,
    marks: &mut Marks,
) -> Option<u32>
    requires name { blank.name ≡ L.name }
    requires parts { blank.parts ≡ L.parts }
    requires some { 0 < blank.parts }
    requires wellformed { IsWellformed rows }
    requires place { at ≤ length file.now }
    requires small { length file.now ≤ 2 ^ 28 }
    requires room { length (moves_of rows) ≤ marks.old.room }
{
    let mut steps = Steps::<L>::begin(blank);
    best_end(rows, file, at, least, greedy, border, marks, &mut steps)
}

fn next_of<L: Ledger>(blank: Blank, walk: &mut StartWalk<'_>, marks: &mut Marks) -> Option<u32>
    requires name { blank.name ≡ L.name }
    requires parts { blank.parts ≡ L.parts }
    requires some { 0 < blank.parts }
    requires midway { IsMidway walk.old marks.old }
    ensures { IsMidway walk.new marks.new }
{
    let mut steps = Steps::<L>::begin(blank);
    walk.next(marks, &mut steps)
}

fn occurs_in<L: Ledger>(blank: Blank, rows: ProgramRows<'_>, text: &[u8], marks: &mut Marks) -> bool
    requires name { blank.name ≡ L.name }
    requires parts { blank.parts ≡ L.parts }
    requires some { 0 < blank.parts }
    requires wellformed { IsWellformed rows }
    requires room { length (moves_of rows) ≤ marks.old.room }
{
    let mut steps = Steps::<L>::begin(blank);
    occurs(rows, text, marks, &mut steps)
}

// The end that a program has in a file.
fn end(
    rt: &impl Abort,
    alloc: Global,
    program: Program,
    file: &[u8],
    at: u32,
    least: u32,
    greedy: bool,
    border: Border,
) -> Result<Option<u32>, Fail> {
    let moves = moves_of(alloc, program.moves)?;
    let sets = sets_of(alloc, program.texts)?;
    assert!(rt; moves.len() % 16 == 0 && sets.len() % 32 == 0);
    let rows = ProgramRows::over(&moves, &sets);
    assert!(rt; rows.is_wellformed());
    assert!(rt; rows.len() <= 16 && at as usize <= file.len() && file.len() <= 1000);
    let mut marks = Marks::for_moves(alloc, ROOM)?;
    let blank = Blank::new(1);
    Ok(end_of::<Brand>(blank, rows, file, at, least, greedy, border, &mut marks))
}

// The starts that a backwards program has up to `at`, one after another, and what comes after them.
fn starts_of(
    rt: &impl Abort,
    alloc: Global,
    program: Program,
    file: &[u8],
    at: u32,
) -> Result<Vec<Option<u32>>, Fail> {
    let moves = moves_of(alloc, program.moves)?;
    let sets = sets_of(alloc, program.texts)?;
    assert!(rt; moves.len() % 16 == 0 && sets.len() % 32 == 0);
    let rows = ProgramRows::over(&moves, &sets);
    assert!(rt; rows.is_wellformed());
    assert!(rt; rows.len() <= 16 && at as usize <= file.len() && file.len() <= 1000);
    let mut marks = Marks::for_moves(alloc, ROOM)?;
    let mut walk = starts(rows, file, at, &mut marks);
    let mut found = Vec::new(alloc);
    for _ in 0..5 {
        let next = next_of::<Brand>(Blank::new(1), &mut walk, &mut marks);
        found.push(next)?;
    }
    Ok(found)
}

// Whether a program occurs in a text.
fn found_in(rt: &impl Abort, alloc: Global, program: Program, text: &[u8]) -> Result<bool, Fail> {
    let moves = moves_of(alloc, program.moves)?;
    let sets = sets_of(alloc, program.texts)?;
    assert!(rt; moves.len() % 16 == 0 && sets.len() % 32 == 0);
    let rows = ProgramRows::over(&moves, &sets);
    assert!(rt; rows.is_wellformed());
    assert!(rt; rows.len() <= 16);
    let mut marks = Marks::for_moves(alloc, ROOM)?;
    Ok(occurs_in::<Brand>(Blank::new(1), rows, text, &mut marks))
}

fn ends(rt: &impl Abort, alloc: Global) -> Result<(), Fail> {
    let rows = [
        (STARS, "baaa", 1, 2, LEAST, FREE, Some(2)),
        (STARS, "baaa", 1, 2, GREATEST, FREE, Some(4)),
        (STARS, "baaa", 0, 0, GREATEST, FREE, Some(0)),
        (STARS, "baaa", 0, 1, GREATEST, FREE, None),
        (STARS, "baaa", 4, 0, GREATEST, FREE, Some(4)),
        (CIRCLE, "baaa", 0, 0, LEAST, FREE, None),
        (HEX, "\x01\x13\x04\0\0\x05", 0, 1, LEAST, FREE, Some(6)),
        (RANGE, "xxxxy", 0, 1, GREATEST, FREE, Some(3)),
        (RANGE, "xxxxy", 1, 2, GREATEST, FREE, Some(5)),
        (RANGE, "xxxxy", 2, 3, GREATEST, FREE, Some(5)),
        (RANGE, "xxxxy", 3, 4, GREATEST, FREE, None),
        (WORD, "a b1", 0, 0, GREATEST, PLAIN, Some(1)),
        (WORD, "a b1", 0, 2, GREATEST, PLAIN, None),
        (WORD, "a b", 0, 0, GREATEST, PLAIN, Some(3)),
        (LETTER, "a\0b\0", 0, 0, LEAST, WIDE, None),
        (LETTER, "a\0b1", 0, 0, LEAST, WIDE, Some(2)),
        (EDGE, "a\0b\0", 0, 0, LEAST, FREE, None),
        (EDGE, "a\0", 0, 0, LEAST, FREE, Some(2)),
        (NO_EDGE, "a\0", 0, 0, LEAST, FREE, None),
        (NO_EDGE, "a\0b\0", 0, 0, LEAST, FREE, Some(2)),
    ];
    for (program, file, at, least, greedy, border, want) in rows {
        let file = file.as_bytes();
        let got = end(rt, alloc, program, file, at, least, greedy, border)?;
        assert_eq!(rt; got, want, "from {at} and {least} in {file:?}");
    }
    Ok(())
}

fn walks(rt: &impl Abort, alloc: Global) -> Result<(), Fail> {
    let rows = [
        (AT_START, "aa", 1, [Some(0), None, None, None, None]),
        (AT_START, "aa", 2, [None; 5]),
        (AT_END, "aa", 2, [Some(1), None, None, None, None]),
        (AT_END, "aa", 1, [None; 5]),
        (SOME, "baaac", 4, [Some(3), Some(2), Some(1), None, None]),
        (STARS, "caa", 3, [Some(3), Some(2), Some(1), None, None]),
        (STARS, "", 0, [Some(0), None, None, None, None]),
    ];
    for (program, file, at, want) in rows {
        let got = starts_of(rt, alloc, program, file.as_bytes(), at)?;
        assert_eq!(rt; got.as_slice(), want.as_slice(), "to {at} in {file}");
    }
    Ok(())
}

fn occurrences(rt: &impl Abort, alloc: Global) -> Result<(), Fail> {
    let rows = [
        (PAIR, "axyb", true),
        (PAIR, "xxy", true),
        (PAIR, "xaxby", false),
        (INNER, "a", false),
        (INNER, "ab", true),
        (INNER, "", true),
    ];
    for (program, text, want) in rows {
        let got = found_in(rt, alloc, program, text.as_bytes())?;
        assert_eq!(rt; got, want, "in {text}");
    }
    Ok(())
}

#[test]
fn programs(rt: HostRuntime) -> Result<(), Fail> {
    let alloc = rt.alloc();
    ends(&rt, alloc)?;
    walks(&rt, alloc)?;
    occurrences(&rt, alloc)
}
