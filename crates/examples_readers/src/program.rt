//! Patterns by hand: the ends of their programs, and the starts of their backwards programs.

ghost use Rattle.std.specs.Prelude.{◌≡◌, ◌<◌, ◌≤◌, ◌^◌, length};
ghost use Rattle.yr_moves.specs.Programs.{moves_of, IsWellformed};

use std::alloc::{AllocError, Global};
use std::marker::Brand;
use std::process::Abort;
use std::sync::ledger::{Blank, Ledger};
use std::test::Fail;
use yr_base::{Border, Steps};
use yr_pattern::{ByteSet, Pattern, size};
use yr_program::{Marks, Program, ProgramRows, assemble, best_end, starts};

const ROOM: u32 = 64;

const LEAST: bool = false;

const GREATEST: bool = true;

fn byte(b: u8) -> Pattern {
    Pattern::One(ByteSet::one(b))
}

fn repeat(alloc: Global, p: Pattern, min: u32, max: Option<u32>) -> Result<Pattern, AllocError> {
    let inner = Box::new(alloc, p)?;
    Ok(Pattern::Rep { inner, min, max })
}

// (a*)+
fn stars(alloc: Global) -> Result<Pattern, AllocError> {
    let many = repeat(alloc, byte(b'a'), 0, None)?;
    repeat(alloc, many, 1, None)
}

// 01 ~?2 ( 03 | 04 [1-2] 05 )
fn hex(alloc: Global) -> Result<Pattern, AllocError> {
    let mut twos = ByteSet::none();
    for high in 0..16u8 {
        twos = twos.with(high * 16 + 2);
    }
    let any = Pattern::One(ByteSet::none().complement());
    let jump = repeat(alloc, any, 1, Some(2))?;
    let long = Pattern::Seq(Vec::from_array(alloc, [byte(4), jump, byte(5)])?);
    let choice = Pattern::Alt(Vec::from_array(alloc, [byte(3), long])?);
    let not_two = Pattern::One(twos.complement());
    let all = Vec::from_array(alloc, [byte(1), not_two, choice])?;
    Ok(Pattern::Seq(all))
}

fn pair(alloc: Global, first: Pattern, second: Pattern) -> Result<Pattern, AllocError> {
    Ok(Pattern::Seq(Vec::from_array(alloc, [first, second])?))
}

// a, in two bytes, and an edge after it
fn wide_edge(alloc: Global) -> Result<Pattern, AllocError> {
    let all = Vec::from_array(alloc, [byte(b'a'), byte(0), Pattern::WideEdge])?;
    Ok(Pattern::Seq(all))
}

fn end_of<L: Ledger>(
    blank: Blank,
    rows: ProgramRows<'_>,
    file: &[u8],
    at: u32,
    greedy: bool,
    marks: &mut Marks,
) -> Option<u32>
    requires name { blank.name ≡ L.name }
    requires parts { blank.parts ≡ L.parts }
    requires some { 0 < blank.parts }
    requires wellformed { IsWellformed rows }
    requires place { at ≤ length file.now }
    requires small { length file.now ≤ 2 ^ 28 }
    requires room { length (moves_of rows) ≤ marks.old.room }
{
    let mut steps = Steps::<L>::begin(blank);
    best_end(rows, file, at, 0, greedy, Border::Free, marks, &mut steps)
}

fn start_of<L: Ledger>(
    blank: Blank,
    rows: ProgramRows<'_>,
    file: &[u8],
    at: u32,
    marks: &mut Marks,
) -> Option<u32>
    requires name { blank.name ≡ L.name }
    requires parts { blank.parts ≡ L.parts }
    requires some { 0 < blank.parts }
    requires wellformed { IsWellformed rows }
    requires place { at ≤ length file.now }
    requires small { length file.now ≤ 2 ^ 28 }
    requires room { length (moves_of rows) ≤ marks.old.room }
{
    let mut steps = Steps::<L>::begin(blank);
    let mut walk = starts(rows, file, at, marks);
    walk.next(marks, &mut steps)
}

// The program of a pattern.
fn program(rt: &impl Abort, alloc: Global, p: &Pattern, backwards: bool) -> Result<Program, Fail> {
    assert!(rt; size(p) <= 65_535);
    let made = assemble(alloc, p, backwards)?;
    Ok(made)
}

// The end that a pattern has in a file.
fn end(
    rt: &impl Abort,
    alloc: Global,
    p: &Pattern,
    file: &str,
    at: u32,
    greedy: bool,
) -> Result<Option<u32>, Fail> {
    let program = program(rt, alloc, p, false)?;
    let file = file.as_bytes();
    let rows = program.rows();
    assert!(rt; rows.is_wellformed() && rows.len() <= 64);
    assert!(rt; at as usize <= file.len() && file.len() <= 1000);
    let mut marks = Marks::for_moves(alloc, ROOM)?;
    Ok(end_of::<Brand>(Blank::new(1), rows, file, at, greedy, &mut marks))
}

// The last start that a pattern has up to `at`.
fn start(
    rt: &impl Abort,
    alloc: Global,
    p: &Pattern,
    file: &str,
    at: u32,
) -> Result<Option<u32>, Fail> {
    let program = program(rt, alloc, p, true)?;
    let file = file.as_bytes();
    let rows = program.rows();
    assert!(rt; rows.is_wellformed() && rows.len() <= 64);
    assert!(rt; at as usize <= file.len() && file.len() <= 1000);
    let mut marks = Marks::for_moves(alloc, ROOM)?;
    Ok(start_of::<Brand>(Blank::new(1), rows, file, at, &mut marks))
}

fn ends(rt: &impl Abort, alloc: Global) -> Result<(), Fail> {
    let rows = [
        (stars(alloc)?, "baaa", 1, GREATEST, Some(4)),
        (stars(alloc)?, "baaa", 1, LEAST, Some(1)),
        (stars(alloc)?, "baaa", 0, GREATEST, Some(0)),
        (hex(alloc)?, "\x01\x13\x04\0\0\x05", 0, LEAST, Some(6)),
        (hex(alloc)?, "\x01\x12\x03", 0, LEAST, None),
        (hex(alloc)?, "\x01\x13\x03", 0, LEAST, Some(3)),
        (Pattern::Alt(Vec::new(alloc)), "a", 0, LEAST, None),
        (
            repeat(alloc, byte(b'a'), 2, Some(1))?,
            "aaa",
            0,
            GREATEST,
            None,
        ),
        (
            repeat(alloc, byte(b'a'), 1, Some(2))?,
            "aaa",
            0,
            GREATEST,
            Some(2),
        ),
        (wide_edge(alloc)?, "a\0b\0", 0, LEAST, None),
        (wide_edge(alloc)?, "a\0", 0, LEAST, Some(2)),
    ];
    for (p, file, at, greedy, want) in &rows {
        let got = end(rt, alloc, p, file, *at, *greedy)?;
        assert_eq!(rt; got, *want, "from {at} in {file}");
    }
    Ok(())
}

fn walks(rt: &impl Abort, alloc: Global) -> Result<(), Fail> {
    let rows = [
        (pair(alloc, Pattern::Start, byte(b'a'))?, "aa", 1, Some(0)),
        (pair(alloc, Pattern::Start, byte(b'a'))?, "aa", 2, None),
        (pair(alloc, byte(b'a'), Pattern::End)?, "aa", 2, Some(1)),
        (pair(alloc, byte(b'a'), Pattern::End)?, "aa", 1, None),
        (hex(alloc)?, "\x01\x13\x04\0\0\x05", 6, Some(0)),
    ];
    for (p, file, at, want) in &rows {
        let got = start(rt, alloc, p, file, *at)?;
        assert_eq!(rt; got, *want, "to {at} in {file}");
    }
    Ok(())
}

// How many moves there are for a pattern of the greatest size.
fn greatest(rt: &impl Abort, alloc: Global) -> Result<usize, Fail> {
    let p = repeat(alloc, byte(b'a'), 65_535, Some(65_535))?;
    let program = program(rt, alloc, &p, false)?;
    Ok(program.rows().len())
}

#[test]
fn programs(rt: HostRuntime) -> Result<(), Fail> {
    let alloc = rt.alloc();
    ends(&rt, alloc)?;
    walks(&rt, alloc)?;
    assert_eq!(&rt; greatest(&rt, alloc)?, 65_536);
    Ok(())
}
