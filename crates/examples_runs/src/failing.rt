//! Each call of the store and each put failing in turn.

use crate::files::{bytes_of, number};
use crate::row::{Row, command_of, last_of};
use crate::running::{Faults, NO_FAULT, World, run_before, run_line, world_of};
use std::alloc::Global;
use yr_base::NoMemory;

/// How many bytes a failing put takes, where it takes all.
const ALL: u32 = 10_000;

/// How the last command of a row ended.
#[derive(Drop)]
struct Ended {
    status: u8,
    world: World,
}

// The row's files, and `r.img` as the commands before the last leave it.
fn begun(alloc: Global, row: &Row<'_>, last: &str, faults: Faults) -> Result<World, NoMemory> {
    let mut before = world_of(alloc, &row.files, NO_FAULT)?;
    run_before(alloc, row.text, last, &mut before)?;
    let mut world = world_of(alloc, &row.files, faults)?;
    if let Some(image) = before.store.get("r.img") {
        world.store.add(alloc, "r.img", image)?;
    }
    Ok(world)
}

// Runs the last command of a row with these faults.
fn end_with(alloc: Global, row: &Row<'_>, faults: Faults) -> Result<Ended, NoMemory> {
    let command = command_of(alloc, row.text)?;
    let mut world = begun(alloc, row, command.as_str(), faults)?;
    let status = run_line(alloc, command.as_str(), &mut world)?;
    Ok(Ended { status, world })
}

// Whether each file of the row is as it was.
fn keeps_files(row: &Row<'_>, world: &World) -> bool {
    for file in &row.files {
        let Some(bytes) = world.store.get(file.name) else {
            return false;
        };
        if bytes != bytes_of(&row.files, file.name) {
            return false;
        }
    }
    true
}

// Whether the text is a front, a name and the line's end.
fn says(said: &[u8], front: &str, name: &str) -> bool {
    match said.strip_prefix(front.as_bytes()) {
        Some(rest) => rest.strip_suffix(b"\n".as_slice()) == Some(name.as_bytes()),
        None => false,
    }
}

// Whether a run ended at a call of the store with this name, with nothing on the output.
fn ended_at_call(row: &Row<'_>, call: &str, end: &Ended) -> bool {
    let (status, front, name) = match call.strip_prefix('>') {
        Some(name) => (5, "cannot write ", name),
        None => (4, "cannot read ", call),
    };
    end.status == status
        && says(end.world.err.bytes(), front, name)
        && end.world.out.bytes().is_empty()
        && keeps_files(row, &end.world)
}

// Whether each failing call is told, and one more changes nothing.
fn calls_are_told(alloc: Global, row: &Row<'_>, calls: &str) -> Result<bool, NoMemory> {
    let mut faults = NO_FAULT;
    faults.call = 1;
    for call in calls.split_whitespace() {
        let end = end_with(alloc, row, faults)?;
        if !ended_at_call(row, call, &end) {
            return Ok(false);
        }
        faults.call = faults.call.saturating_add(1);
    }
    let end = end_with(alloc, row, faults)?;
    Ok(row.is_answered(end.status, &end.world))
}

// Whether a run ended at a put, with so many bytes of the answer.
fn ended_at_put(row: &Row<'_>, size: usize, end: &Ended) -> bool {
    end.status == 5
        && end.world.err.bytes() == b"cannot write output\n".as_slice()
        && end.world.out.bytes().len() == size
        && row.out.starts_with(end.world.out.bytes())
        && keeps_files(row, &end.world)
}

// Whether a line feed stands nowhere but at the end.
fn is_of_one_line(bytes: &[u8]) -> bool {
    match bytes {
        [line @ .., _] => !line.contains(&b'\n'),
        [] => false,
    }
}

// Whether a failing put that takes so many bytes is told, where `from` bytes were written before.
fn put_is_told(
    alloc: Global,
    row: &Row<'_>,
    faults: Faults,
    from: usize,
) -> Result<bool, NoMemory> {
    let end = end_with(alloc, row, faults)?;
    Ok(ended_at_put(row, from.saturating_add(faults.taken as usize), &end))
}

// Where a put ends that begins behind so many bytes of the answer; there where it is not told.
fn end_of_put(alloc: Global, row: &Row<'_>, put: u64, from: usize) -> Result<usize, NoMemory> {
    let mut faults = NO_FAULT;
    faults.put = put;
    faults.taken = ALL;
    let all = end_with(alloc, row, faults)?;
    let written = all.world.out.bytes();
    let told = match written.get(from..) {
        Some(bytes) => is_of_one_line(bytes) && ended_at_put(row, written.len(), &all),
        None => false,
    };
    Ok(if told { written.len() } else { from })
}

// With how many puts the answer is written, none where a failing one is not told.
fn told_puts(alloc: Global, row: &Row<'_>) -> Result<Option<u64>, NoMemory> {
    let mut faults = NO_FAULT;
    let mut from = 0;
    for put in 1..100u64 {
        if from == row.out.len() {
            return Ok(Some(put - 1));
        }
        faults.put = put;
        faults.taken = 0;
        let none = put_is_told(alloc, row, faults, from)?;
        faults.taken = 1;
        let one = put_is_told(alloc, row, faults, from)?;
        let to = end_of_put(alloc, row, put, from)?;
        if !none || !one || to == from {
            return Ok(None);
        }
        from = to;
    }
    Ok(None)
}

// Whether each failing put on the output is told, and one more changes nothing.
fn puts_are_told(alloc: Global, row: &Row<'_>) -> Result<bool, NoMemory> {
    let Some(puts) = told_puts(alloc, row)? else {
        return Ok(false);
    };
    let mut faults = NO_FAULT;
    faults.put = puts.saturating_add(1);
    let end = end_with(alloc, row, faults)?;
    let wanted = number(last_of(row.text, "puts").unwrap_or(""));
    Ok(row.is_answered(end.status, &end.world) && (wanted == 0 || wanted as u64 == puts))
}

// Whether an output that is full is told, at every seventh size.
fn rooms_are_told(alloc: Global, row: &Row<'_>) -> Result<bool, NoMemory> {
    let mut faults = NO_FAULT;
    for room in (0..row.out.len()).step_by(7) {
        faults.room = (room % 10_000) as u32;
        let end = end_with(alloc, row, faults)?;
        if !ended_at_put(row, room, &end) {
            return Ok(false);
        }
    }
    Ok(true)
}

// Whether nothing is changed but what was to be said, of which there is a front.
fn said_a_front(row: &Row<'_>, end: &Ended) -> bool {
    end.status == row.status
        && end.world.out.bytes() == row.out.as_slice()
        && row.err.starts_with(end.world.err.bytes())
        && keeps_files(row, &end.world)
}

// Whether nothing else is changed where a put on the second output fails.
fn fails_quietly(alloc: Global, row: &Row<'_>, faults: Faults) -> Result<bool, NoMemory> {
    let end = end_with(alloc, row, faults)?;
    let full = (faults.err_room as usize).min(row.err.len());
    let is_cut = faults.err_put == 0 && end.world.err.bytes().len() != full;
    Ok(said_a_front(row, &end) && !is_cut)
}

// Whether what cannot be said changes nothing else.
fn says_change_nothing(alloc: Global, row: &Row<'_>) -> Result<bool, NoMemory> {
    for room in 0..row.err.len() {
        let mut faults = NO_FAULT;
        faults.err_room = (room % 10_000) as u32;
        let full = fails_quietly(alloc, row, faults)?;
        faults.err_room = ALL;
        faults.err_put = (room as u64).saturating_add(1);
        if !full || !fails_quietly(alloc, row, faults)? {
            return Ok(false);
        }
    }
    Ok(true)
}

/// What is wrong with the answers of the last command where one of its calls of the store fails, or one of its puts.
pub fn fault_when_failing(
    alloc: Global,
    row: &Row<'_>,
    calls: &str,
) -> Result<&'static str, NoMemory> {
    Ok(if !calls_are_told(alloc, row, calls)? {
        "another answer where a call fails"
    } else if !puts_are_told(alloc, row)? {
        "another answer where a put fails"
    } else if !rooms_are_told(alloc, row)? {
        "another answer where an output is full"
    } else if !says_change_nothing(alloc, row)? {
        "another answer where nothing can be said"
    } else {
        ""
    })
}
