//! The ends of a program from each place, found and timed.

ghost use Rattle.std.specs.Prelude.{◌≡◌, ◌<◌, ◌≤◌, ◌^◌, length, IfSome};
ghost use Rattle.yr_moves.specs.Programs.{moves_of, IsWellformed};
ghost use Rattle.yr_walks.specs.EndWalks.{IsMidway};

use crate::move_programs::Program;
use crate::stopwatch::{RUNS, Stopwatch};
use std::alloc::Global;
use std::marker::Brand;
use std::sync::ledger::{Blank, Ledger};
use yr_base::{Border, NoMemory, Steps};
use yr_moves::{Marks, ProgramRows, best_end};
use yr_walks::{Edges, EndMarks, EndWalk, ends};

/// How many places have an end, and the sum of the ends, modulo a power of two.
#[derive(Clone, Copy)]
pub struct Found {
    pub places: u64,
    pub ends: u64,
}

const NOTHING: Found = Found { places: 0, ends: 0 };

impl Found {
    fn with(self, end: Option<u32>) -> Found {
        match end {
            Some(j) => Found {
                places: self.places.wrapping_add(1),
                ends: self.ends.wrapping_add(u64::from(j)),
            },
            None => self,
        }
    }
}

// The program of the rows, where they are wellformed and few, and the text is not too long.
fn rows_of<'a>(program: &'a Program, text: &[u8]) -> Option<ProgramRows<'a>>
    ensures { IfSome result (λ rows. IsWellformed rows × (length (moves_of rows) ≤ 1000)
        × (length text.now ≤ 2 ^ 28)) }
{
    if program.moves.len() % 16 != 0 || program.sets.len() % 32 != 0 || text.len() > 268_435_456 {
        return None;
    }
    let rows = ProgramRows::over(&program.moves, &program.sets);
    if !rows.is_wellformed() || rows.len() > 1000 {
        return None;
    }
    Some(rows)
}

fn walk_down<L: Ledger>(blank: Blank, walk: &mut EndWalk<'_>, marks: &mut EndMarks) -> Found
    requires name { blank.name ≡ L.name }
    requires parts { blank.parts ≡ L.parts }
    requires some { 0 < blank.parts }
    requires midway { IsMidway walk.old marks.old }
{
    let mut steps = Steps::<L>::begin(blank);
    let mut found = NOTHING;
    while walk.place() > 0 {
        found = found.with(walk.next(marks, &mut steps).0);
    }
    found
}

// By one walk.
fn walk(alloc: Global, program: &Program, text: &[u8]) -> Result<Found, NoMemory> {
    let Some(rows) = rows_of(program, text) else {
        return Ok(NOTHING);
    };
    let edges = Edges::of(alloc, rows, true)?;
    let mut marks = EndMarks::for_moves(alloc, 1000)?;
    let mut walk = ends(rows, &edges, text, true, Border::Free, &mut marks);
    Ok(walk_down::<Brand>(Blank::new(1), &mut walk, &mut marks))
}

fn ask_each<L: Ledger>(blank: Blank, rows: ProgramRows<'_>, text: &[u8], marks: &mut Marks) -> Found
    requires name { blank.name ≡ L.name }
    requires parts { blank.parts ≡ L.parts }
    requires some { 0 < blank.parts }
    requires wellformed { IsWellformed rows }
    requires small { length text.now ≤ 2 ^ 28 }
    requires room { length (moves_of rows) ≤ marks.old.room }
{
    let mut steps = Steps::<L>::begin(blank);
    let mut found = NOTHING;
    for i in 0..text.len() + 1 {
        let at = i as u32;
        found = found.with(best_end(rows, text, at, at, true, Border::Free, marks, &mut steps));
    }
    found
}

// By a search from each place.
fn each(alloc: Global, program: &Program, text: &[u8]) -> Result<Found, NoMemory> {
    let Some(rows) = rows_of(program, text) else {
        return Ok(NOTHING);
    };
    let mut marks = Marks::for_moves(alloc, 1000)?;
    Ok(ask_each::<Brand>(Blank::new(1), rows, text, &mut marks))
}

/// How the ends are found.
#[derive(Clone, Copy)]
pub enum By {
    /// By one walk.
    Walk,
    /// By a search from each place.
    Each,
}

/// The ends from all places; none where there is no memory.
pub fn find(alloc: Global, by: By, program: &Program, text: &[u8]) -> Found {
    let found = match by {
        By::Walk => walk(alloc, program, text),
        By::Each => each(alloc, program, text),
    };
    match found {
        Ok(found) => found,
        Err(_) => NOTHING,
    }
}

/// Prints how fast the ends are found.
pub fn time(
    rt: HostRuntime,
    name: &str,
    what: &str,
    by: By,
    program: &Program,
    text: &[u8],
) -> anyhow::Result<()> {
    let mut watch = Stopwatch::new();
    let mut found = NOTHING;
    for _ in 0..RUNS {
        watch.start(rt)?;
        found = find(rt.alloc(), by, program, text);
        watch.stop(rt)?;
    }
    let (bytes, places) = (text.len(), found.places);
    let (seconds, megabytes) = (watch.least, watch.millions(bytes));
    println!(rt;
        "{name}, {what}: {bytes} bytes, {seconds:.3} s, {megabytes:.3} MB/s ({places} places)"
    )?;
    Ok(())
}
