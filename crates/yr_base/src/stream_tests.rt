ghost use Rattle.std.specs.Prelude.{◌≤◌, IfOk};

use crate::reading::read_whole;
use crate::sink::PutAnswer;
use crate::store::ReadAnswer;
use crate::writing::write_whole;
use std::alloc::Global;
use std::io;
use std::io::{ErrorKind, Read, Write};
use std::test::Fail;

/// What a call answers.
#[derive(Clone, Copy)]
enum Turn {
    Moves(usize),
    Fails,
    IsInterrupted,
}

/// Answers calls by the turns, one after another, and then always by the last.
#[derive(Drop)]
struct Script {
    turns: &'static [Turn],
    last: Turn,
    calls: usize,
    taken: Vec<u8>,
}

impl Script {
    fn new(alloc: Global, turns: &'static [Turn], last: Turn) -> Script {
        Script {
            turns,
            last,
            calls: 0,
            taken: Vec::new(alloc),
        }
    }

    /// How many of so many bytes the next call moves.
    fn moved(&mut self, most: usize) -> io::Result<usize>
        ensures { IfOk result (λ n. n ≤ most) }
    {
        let turn = match self.turns.get(self.calls) {
            Some(turn) => *turn,
            None => self.last,
        };
        self.calls = self.calls.saturating_add(1);
        match turn {
            Turn::Moves(count) => Ok(count.min(most)),
            Turn::Fails => Err(io::Error::from(ErrorKind::Other)),
            Turn::IsInterrupted => Err(io::Error::from(ErrorKind::Interrupted)),
        }
    }
}

impl Read for Script {
    fn read(&mut self, buffer: &mut [u8]) -> io::Result<usize> {
        self.moved(buffer.len())
    }
}

impl Write for Script {
    fn write(&mut self, bytes: &[u8]) -> io::Result<usize> {
        let count = self.moved(bytes.len())?;
        self.taken.extend_from_slice(&bytes[..count])?;
        Ok(count)
    }

    fn flush(&mut self) -> io::Result<()> {
        Ok(())
    }
}

#[test]
fn a_read_ends_at_the_end_or_at_an_error(rt: HostRuntime) -> Result<(), Fail> {
    let end = Turn::Moves(0);
    for (turns, last, limit, answer, len, calls) in [
        (
            [Turn::Moves(2), Turn::Moves(3)].as_slice(),
            end,
            5,
            ReadAnswer::Done,
            5,
            3,
        ),
        (
            [Turn::Moves(2), Turn::Moves(9)].as_slice(),
            end,
            4,
            ReadAnswer::Long,
            5,
            2,
        ),
        ([Turn::Fails].as_slice(), end, 5, ReadAnswer::Failed, 0, 1),
        (
            [Turn::Moves(2), Turn::Fails].as_slice(),
            end,
            5,
            ReadAnswer::Failed,
            0,
            2,
        ),
        (
            [Turn::IsInterrupted, Turn::Moves(2), Turn::IsInterrupted].as_slice(),
            end,
            5,
            ReadAnswer::Done,
            2,
            4,
        ),
        (
            [Turn::Moves(2)].as_slice(),
            Turn::IsInterrupted,
            5,
            ReadAnswer::Failed,
            0,
            1_001,
        ),
    ] {
        let mut reader = Script::new(rt.alloc(), turns, last);
        let mut into = Vec::new(rt.alloc());
        let mut faults = 7;
        let got = read_whole(&mut reader, limit, &mut into, &mut faults);
        assert_eq!(rt; got, answer, "of {} turns", turns.len());
        assert_eq!(rt; into.len(), len, "of {} turns", turns.len());
        assert_eq!(rt; reader.calls, calls, "of {} turns", turns.len());
        assert_eq!(rt;
            faults == 8,
            answer == ReadAnswer::Failed,
            "of {} turns",
            turns.len()
        );
    }
    Ok(())
}

#[test]
fn a_write_takes_all_or_fails(rt: HostRuntime) -> Result<(), Fail> {
    let nothing = Turn::Moves(0);
    for (turns, last, answer, taken, calls) in [
        ([].as_slice(), Turn::Moves(2), PutAnswer::Done, "abcde", 3),
        (
            [Turn::Moves(2), Turn::Fails].as_slice(),
            nothing,
            PutAnswer::Failed,
            "ab",
            2,
        ),
        ([Turn::Fails].as_slice(), nothing, PutAnswer::Failed, "", 1),
        (
            [Turn::Moves(4)].as_slice(),
            nothing,
            PutAnswer::Failed,
            "abcd",
            2,
        ),
        (
            [Turn::IsInterrupted, Turn::Moves(9)].as_slice(),
            nothing,
            PutAnswer::Done,
            "abcde",
            2,
        ),
        (
            [Turn::Moves(1)].as_slice(),
            Turn::IsInterrupted,
            PutAnswer::Failed,
            "a",
            1_001,
        ),
    ] {
        let mut writer = Script::new(rt.alloc(), turns, last);
        let mut faults = 7;
        assert_eq!(rt; write_whole(&mut writer, b"", &mut faults), PutAnswer::Done);
        let got = write_whole(&mut writer, b"abcde", &mut faults);
        assert_eq!(rt; got, answer, "of {taken}");
        assert_eq!(rt; writer.taken.as_slice(), taken.as_bytes(), "of {taken}");
        assert_eq!(rt; writer.calls, calls, "of {taken}");
        assert_eq!(rt; faults == 8, answer == PutAnswer::Failed, "of {taken}");
    }
    Ok(())
}
