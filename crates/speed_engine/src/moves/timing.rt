//! Occurrences of a program in a text, found and timed.

ghost use Rattle.std.specs.Prelude.{◌≡◌, ◌<◌, ◌≤◌, length};
ghost use Rattle.yr_moves.specs.Programs.{moves_of, IsWellformed};

use crate::move_programs::Program;
use crate::stopwatch::{RUNS, Stopwatch};
use crate::texts::repeated;
use std::alloc::Global;
use std::marker::Brand;
use std::sync::ledger::{Blank, Ledger};
use yr_base::Steps;
use yr_moves::{Marks, ProgramRows, occurs};

/// Room for each of the programs.
const ROOM: u32 = 1000;

fn occurs_in<L: Ledger>(blank: Blank, rows: ProgramRows<'_>, text: &[u8], marks: &mut Marks) -> bool
    requires name { blank.name ≡ L.name }
    requires parts { blank.parts ≡ L.parts }
    requires some { 0 < blank.parts }
    requires wellformed { IsWellformed rows }
    requires room { length (moves_of rows) ≤ marks.old.room }
    ensures { marks.new.room ≡ marks.old.room }
{
    let mut steps = Steps::<L>::begin(blank);
    occurs(rows, text, marks, &mut steps)
}

// Whether a program occurs in a text; false where its rows are not wellformed.
fn found(program: &Program, text: &[u8], marks: &mut Marks) -> bool
    requires { marks.old.room ≡ 1000 }
    ensures { marks.new.room ≡ 1000 }
{
    if program.moves.len() % 16 != 0 || program.sets.len() % 32 != 0 {
        return false;
    }
    let rows = ProgramRows::over(&program.moves, &program.sets);
    if !rows.is_wellformed() || rows.len() > 1000 {
        return false;
    }
    occurs_in::<Brand>(Blank::new(1), rows, text, marks)
}

/// Whether a program occurs in a text; false where there is no memory.
pub fn finds(alloc: Global, program: &Program, text: &[u8]) -> bool {
    match Marks::for_moves(alloc, ROOM) {
        Ok(mut marks) => found(program, text, &mut marks),
        Err(_) => false,
    }
}

/// Prints how fast a program that looks at so many moves a place runs over a text that repeats a
/// piece.
pub fn time(
    rt: HostRuntime,
    name: &str,
    program: &Program,
    piece: &[u8],
    size: usize,
    moves: usize,
) -> anyhow::Result<()> {
    let text = repeated(rt.alloc(), piece, size)?;
    let mut watch = Stopwatch::new();
    let mut all = false;
    for _ in 0..RUNS {
        watch.start(rt)?;
        all ^= finds(rt.alloc(), program, &text);
        watch.stop(rt)?;
    }
    let megabytes = watch.millions(text.len());
    let millions = megabytes * std::num::nearest_usize_to_f64(moves);
    println!(rt; "{name}: {megabytes:.1} MB/s, {millions:.0} million moves/s ({all})")?;
    Ok(())
}
