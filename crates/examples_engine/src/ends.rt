//! Both answers at every place, for programs by hand.

ghost use Rattle.std.specs.Prelude.{◌≡◌, ◌<◌};
ghost use Rattle.yr_walks.specs.EndWalks.{IsMidway};

use std::alloc::{AllocError, Global};
use std::marker::Brand;
use std::process::Abort;
use std::sync::ledger::{Blank, Ledger};
use std::test::Fail;
use yr_base::{Border, Steps};
use yr_moves::ProgramRows;
use yr_rows::{Assertion, Move};
use yr_walks::{Edges, EndMarks, EndWalk, ends};

// The best end from a place, and the best behind it.
type Answer = (Option<u32>, Option<u32>);

// Moves, and the bytes of each of their sets.
#[derive(Clone, Copy)]
struct Program {
    moves: &'static [Move],
    texts: &'static [&'static str],
}

// (a*)+
const STARS: Program = Program {
    moves: &[
        Move::Fork { next: 1, other: 2 },
        Move::Set { next: 0, set: 0 },
        Move::Fork { next: 0, other: 3 },
        Move::Accept,
    ],
    texts: &["a"],
};

// Forks that lead nowhere.
const CIRCLE: Program = Program {
    moves: &[
        Move::Fork { next: 0, other: 1 },
        Move::Fork { next: 0, other: 1 },
    ],
    texts: &[],
};

// a( b)?
const WORD: Program = Program {
    moves: &[
        Move::Set { next: 1, set: 0 },
        Move::Fork { next: 2, other: 4 },
        Move::Set { next: 3, set: 1 },
        Move::Set { next: 4, set: 2 },
        Move::Accept,
    ],
    texts: &["a", " ", "b"],
};

// ^a*$
const WHOLE: Program = Program {
    moves: &[
        Move::Test {
            assertion: Assertion::Start,
            next: 1,
        },
        Move::Fork { next: 2, other: 3 },
        Move::Set { next: 1, set: 0 },
        Move::Test {
            assertion: Assertion::End,
            next: 4,
        },
        Move::Accept,
    ],
    texts: &["a"],
};

fn moves_of(alloc: Global, moves: &[Move]) -> Result<Vec<u8>, AllocError> {
    let mut bytes = Vec::new(alloc);
    for v in moves {
        let row = v.row();
        for number in [row.kind, row.next, row.other, row.set] {
            bytes.extend_from_slice(&number.to_le_bytes())?;
        }
    }
    Ok(bytes)
}

// Sets of the bytes that stand in each text.
fn sets_of(alloc: Global, texts: &[&str]) -> Result<Vec<u8>, AllocError> {
    let mut bytes = Vec::new(alloc);
    for text in texts {
        let mut bits = [0u8; 32];
        for b in text.as_bytes() {
            bits[*b as usize / 8] |= 1 << (*b % 8);
        }
        bytes.extend_from_slice(&bits)?;
    }
    Ok(bytes)
}

fn next_of<L: Ledger>(blank: Blank, walk: &mut EndWalk<'_>, marks: &mut EndMarks) -> Answer
    requires name { blank.name ≡ L.name }
    requires parts { blank.parts ≡ L.parts }
    requires some { 0 < blank.parts }
    requires more { 0 < walk.old.place }
    requires midway { IsMidway walk.old marks.old }
    ensures midway { IsMidway walk.new marks.new }
    ensures falls { walk.new.place < walk.old.place }
{
    let mut steps = Steps::<L>::begin(blank);
    walk.next(marks, &mut steps)
}

// What the walk answers from each place, from the file's end to its front.
fn answers(
    rt: &impl Abort,
    alloc: Global,
    program: Program,
    file: &[u8],
    greedy: bool,
    border: Border,
) -> Result<Vec<Answer>, Fail> {
    let moves = moves_of(alloc, program.moves)?;
    let sets = sets_of(alloc, program.texts)?;
    assert!(rt; moves.len() % 16 == 0 && sets.len() % 32 == 0);
    let rows = ProgramRows::over(&moves, &sets);
    assert!(rt; rows.is_wellformed() && file.len() <= 1000 && rows.len() <= 1000);
    let edges = Edges::of(alloc, rows, true)?;
    let mut marks = EndMarks::for_moves(alloc, rows.len() as u32)?;
    let mut walk = ends(rows, &edges, file, greedy, border, &mut marks);
    let mut found = Vec::new(alloc);
    while walk.place() > 0 {
        let answer = next_of::<Brand>(Blank::new(1), &mut walk, &mut marks);
        found.push(answer)?;
    }
    Ok(found)
}

#[test]
fn programs(rt: HostRuntime) -> Result<(), Fail> {
    let none = (None, None);
    let long: [(Program, &str, bool, Border, [Answer; 4]); 3] = [
        (
            STARS,
            "baa",
            false,
            Border::Free,
            [
                (Some(3), None),
                (Some(2), Some(3)),
                (Some(1), Some(2)),
                (Some(0), None),
            ],
        ),
        (
            STARS,
            "baa",
            true,
            Border::Free,
            [
                (Some(3), None),
                (Some(3), Some(3)),
                (Some(3), Some(3)),
                (Some(0), None),
            ],
        ),
        (CIRCLE, "bab", false, Border::Free, [none; 4]),
    ];
    for (program, file, greedy, border, want) in long {
        let got = answers(&rt, rt.alloc(), program, file.as_bytes(), greedy, border)?;
        assert_eq!(rt; got.as_slice(), want.as_slice(), "in {file}");
    }
    let short: [(Program, &str, bool, Border, Answer); 6] = [
        (WORD, "a b1", true, Border::Plain, (Some(1), Some(1))),
        (WORD, "a b", true, Border::Plain, (Some(3), Some(3))),
        (WORD, "a1", true, Border::Plain, none),
        (WHOLE, "aa", false, Border::Free, (Some(2), Some(2))),
        (WHOLE, "", false, Border::Free, (Some(0), None)),
        (WHOLE, "aab", false, Border::Free, none),
    ];
    for (program, file, greedy, border, want) in short {
        let got = answers(&rt, rt.alloc(), program, file.as_bytes(), greedy, border)?;
        assert_eq!(rt; got.last().copied(), Some(want), "at the front of {file}");
    }
    Ok(())
}
