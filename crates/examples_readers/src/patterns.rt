//! Patterns as they are read, joined with the engine: at each place of a target the match that begins there.

ghost use Rattle.std.specs.Prelude.{◌≡◌, ◌<◌, ◌≤◌, ◌^◌, length};
ghost use Rattle.yr_moves.specs.Programs.{moves_of, IsWellformed};

use std::alloc::Global;
use std::marker::Brand;
use std::process::Abort;
use std::sync::ledger::{Blank, Ledger};
use std::test::Fail;
use yr_base::{Border, Steps};
use yr_hex::read_hex;
use yr_pattern::{Pattern, fold, size, widen};
use yr_program::{Marks, ProgramRows, assemble, best_end};
use yr_regex::{Regex, read_regex};

const ROOM: u32 = 64;

fn end_at<L: Ledger>(
    blank: Blank,
    rows: ProgramRows<'_>,
    target: &[u8],
    at: u32,
    greedy: bool,
    marks: &mut Marks,
) -> Option<u32>
    requires name { blank.name ≡ L.name }
    requires parts { blank.parts ≡ L.parts }
    requires some { 0 < blank.parts }
    requires wellformed { IsWellformed rows }
    requires place { at ≤ length target.now }
    requires small { length target.now ≤ 2 ^ 28 }
    requires room { length (moves_of rows) ≤ marks.old.room }
    ensures { marks.new.room ≡ marks.old.room }
{
    let mut steps = Steps::<L>::begin(blank);
    best_end(
        rows,
        target,
        at,
        at + 1,
        greedy,
        Border::Free,
        marks,
        &mut steps,
    )
}

// Each place of the target at which the pattern has a match, with its end.
fn matches(
    rt: &impl Abort,
    alloc: Global,
    pattern: &Pattern,
    greedy: bool,
    target: &[u8],
) -> Result<Vec<(u32, u32)>, Fail> {
    assert!(rt; size(pattern) <= 65_535 && target.len() <= 100);
    let program = assemble(alloc, pattern, false)?;
    let rows = program.rows();
    assert!(rt; rows.is_wellformed() && rows.len() <= 64);
    let mut found = Vec::new(alloc);
    for at in 0..target.len() as u32 {
        let mut marks = Marks::for_moves(alloc, ROOM)?;
        if let Some(end) = end_at::<Brand>(Blank::new(1), rows, target, at, greedy, &mut marks) {
            found.push((at, end))?;
        }
    }
    Ok(found)
}

fn expression(
    rt: &impl Abort,
    alloc: Global,
    text: &str,
    nocase: bool,
    wide: bool,
) -> Result<Regex, Fail> {
    assert!(rt; text.len() <= 100);
    let regex = read_regex(alloc, text.as_bytes(), nocase, false)?;
    if !wide {
        return Ok(regex);
    }
    let Regex { pattern, greedy } = regex;
    let pattern = widen(alloc, &pattern)?;
    Ok(Regex { pattern, greedy })
}

#[test]
fn expressions_match_where_they_stand(rt: HostRuntime) -> Result<(), Fail> {
    for (text, nocase, wide, target, wanted) in [
        (
            "a+",
            false,
            false,
            "baaa",
            [(1, 4), (2, 4), (3, 4)].as_slice(),
        ),
        (
            "a+?",
            false,
            false,
            "baaa",
            [(1, 2), (2, 3), (3, 4)].as_slice(),
        ),
        (r"\bab\b", false, false, "ab cab", [(0, 2)].as_slice()),
        ("ab", true, true, "A\0b\0", [(0, 4)].as_slice()),
        (
            "x{2,3}y?",
            false,
            false,
            "xxxxy",
            [(0, 3), (1, 5), (2, 5)].as_slice(),
        ),
    ] {
        let regex = expression(&rt, rt.alloc(), text, nocase, wide)?;
        let found = matches(
            &rt,
            rt.alloc(),
            &regex.pattern,
            regex.greedy,
            target.as_bytes(),
        )?;
        assert_eq!(rt; found.as_slice(), wanted, "{text} in {target}");
    }
    Ok(())
}

#[test]
fn hex_strings_match_where_they_stand(rt: HostRuntime) -> Result<(), Fail> {
    for (text, target, wanted) in [
        (
            "01 [2-4] 02",
            b"\x01\0\0\x02\x02".as_slice(),
            [(0, 4)].as_slice(),
        ),
        (
            "01 ~?2 ( 03 | 04 [1-2] 05 )",
            b"\x01\x13\x04\0\0\x05".as_slice(),
            [(0, 6)].as_slice(),
        ),
    ] {
        assert!(rt; text.len() <= 100);
        let pattern = read_hex(rt.alloc(), text.as_bytes())?;
        let found = matches(&rt, rt.alloc(), &pattern, false, target)?;
        assert_eq!(rt; found.as_slice(), wanted, "{text}");
    }
    let plain = expression(&rt, rt.alloc(), "ab", false, false)?;
    let folded = fold(rt.alloc(), &plain.pattern)?;
    let other = expression(&rt, rt.alloc(), "ab", true, false)?;
    assert_eq!(rt; folded == other.pattern, true);
    Ok(())
}
