//! The best ends of spans of splits by hand, from each place.

ghost use Rattle.std.specs.Prelude.{◌≡◌, ◌<◌};
ghost use Rattle.yr_walks.specs.Spans.{IsReadyFor};

use std::alloc::{AllocError, Global};
use std::marker::Brand;
use std::process::Abort;
use std::sync::ledger::{Blank, Ledger};
use std::test::Fail;
use yr_base::{Border, Steps};
use yr_moves::ProgramRows;
use yr_rows::Move;
use yr_walks::{Edges, Side, SpanMarks, SpanWalk, spans};

// The program that accepts at once.
const NOTHING: &[Move] = &[Move::Accept];

// a*, by set 0
const STARS: &[Move] = &[
    Move::Fork { next: 1, other: 2 },
    Move::Set { next: 0, set: 0 },
    Move::Accept,
];

// The letter a.
const SETS: [u8; 32] = [
    0, 0, 0, 0, 0, 0, 0, 0, 0, 0, 0, 0, 2, 0, 0, 0, //
    0, 0, 0, 0, 0, 0, 0, 0, 0, 0, 0, 0, 0, 0, 0, 0,
];

// A split, a file, and where its atom is hit in it.
#[derive(Clone, Copy)]
struct Case {
    before: &'static [Move],
    after: &'static [Move],
    atom: u32,
    border: Border,
    greedy: bool,
    file: &'static str,
    hits: &'static [u32],
}

fn moves_of(alloc: Global, moves: &[Move]) -> Result<Vec<u8>, AllocError> {
    let mut bytes = Vec::new(alloc);
    for v in moves {
        let row = v.row();
        for number in [row.kind, row.next, row.other, row.set] {
            bytes.extend_from_slice(&number.to_le_bytes())?;
        }
    }
    Ok(bytes)
}

fn next_of<L: Ledger>(
    blank: Blank,
    walk: &mut SpanWalk<'_>,
    hit: bool,
    marks: &mut SpanMarks,
) -> Option<u32>
    requires name { blank.name ≡ L.name }
    requires parts { blank.parts ≡ L.parts }
    requires some { 0 < blank.parts }
    requires more { 0 < walk.old.starts.place }
    requires ready { IsReadyFor walk.old marks.old }
    ensures ready { IsReadyFor walk.new marks.new }
    ensures falls { walk.new.starts.place < walk.old.starts.place }
{
    let mut steps = Steps::<L>::begin(blank);
    walk.next(hit, marks, &mut steps)
}

// What the walk answers from each place, the last first.
fn answers(rt: &impl Abort, alloc: Global, case: Case) -> Result<Vec<Option<u32>>, Fail> {
    let file = case.file.as_bytes();
    let before_moves = moves_of(alloc, case.before)?;
    let after_moves = moves_of(alloc, case.after)?;
    assert!(rt; before_moves.len() % 16 == 0 && after_moves.len() % 16 == 0);
    let before = ProgramRows::over(&before_moves, &SETS);
    let after = ProgramRows::over(&after_moves, &SETS);
    assert!(rt; before.is_wellformed() && before.len() <= 1000);
    assert!(rt; after.is_wellformed() && after.len() <= 1000);
    assert!(rt; file.len() <= 1000);
    let onwards = Edges::of(alloc, before, false)?;
    let back = Edges::of(alloc, after, true)?;
    let mut marks = SpanMarks::for_moves(alloc, before.len() as u32, after.len() as u32)?;
    let before = Side {
        rows: before,
        edges: &onwards,
    };
    let after = Side {
        rows: after,
        edges: &back,
    };
    let mut walk = spans(
        before,
        after,
        file,
        case.atom,
        case.border,
        case.greedy,
        &mut marks,
    );
    let mut found = Vec::new(alloc);
    while walk.place() > 0 {
        let hit = case.hits.contains(&(walk.place() - 1));
        let answer = next_of::<Brand>(Blank::new(1), &mut walk, hit, &mut marks);
        found.push(answer)?;
    }
    Ok(found)
}

#[test]
fn splits(rt: HostRuntime) -> Result<(), Fail> {
    let plain = Case {
        before: NOTHING,
        after: NOTHING,
        atom: 2,
        border: Border::Free,
        greedy: false,
        file: "abab",
        hits: &[0, 2],
    };
    let empty = Case {
        atom: 0,
        file: "aab",
        hits: &[0, 1, 2, 3],
        ..plain
    };
    let after = Case {
        after: STARS,
        ..empty
    };
    let before = Case {
        before: STARS,
        hits: &[2],
        ..empty
    };
    let both = Case {
        before: STARS,
        after: STARS,
        atom: 1,
        file: "aaa",
        hits: &[0, 1, 2],
        ..plain
    };
    let rows: [(Case, &[Option<u32>]); 9] = [
        (plain, &[Some(4), None, Some(2)]),
        (empty, &[None, None, None, None]),
        (after, &[None, None, Some(2), Some(1)]),
        (
            Case {
                greedy: true,
                ..after
            },
            &[None, None, Some(2), Some(2)],
        ),
        (before, &[None, None, Some(2), Some(2)]),
        (both, &[Some(3), Some(2), Some(1)]),
        (
            Case {
                greedy: true,
                ..both
            },
            &[Some(3), Some(3), Some(3)],
        ),
        (
            Case {
                border: Border::Plain,
                ..both
            },
            &[None, None, Some(3)],
        ),
        (Case { atom: 4, ..both }, &[]),
    ];
    for (case, want) in rows {
        let got = answers(&rt, rt.alloc(), case)?;
        assert_eq!(rt; got.as_slice(), want, "in {}", case.file);
    }
    Ok(())
}
