//! Runs of the program in memory.

use crate::files::{File, first_word, number};
use std::alloc::Global;
use yr_base::{MemorySink, MemoryStore, NoMemory};
use yr_commands::yara_main;

/// Files and outputs.
#[derive(Drop)]
pub struct World {
    pub store: MemoryStore,
    pub out: MemorySink,
    pub err: MemorySink,
}

/// Which call of the store and which puts fail, 0 for none, and the sizes of the outputs.
#[derive(Clone, Copy)]
pub struct Faults {
    pub call: u64,
    pub put: u64,
    pub err_put: u64,
    /// How many bytes a failing put takes.
    pub taken: u32,
    pub room: u32,
    pub err_room: u32,
}

/// No fault.
pub const NO_FAULT: Faults = Faults {
    call: 0,
    put: 0,
    err_put: 0,
    taken: 0,
    room: 10_000,
    err_room: 10_000,
};

// A word as it is spelt: `''` is the empty one, and `a*3` is `axxx`.
fn word_of(alloc: Global, word: &str) -> Result<String, NoMemory> {
    let mut text = String::new(alloc);
    let (front, count) = word.split_once('*').unwrap_or((word, "0"));
    if front != "''" {
        text.push_str(front)?;
    }
    for _ in 0..number(count) {
        text.push_str("x")?;
    }
    Ok(text)
}

// The words of a line, between blanks.
fn words_of(alloc: Global, line: &str) -> Result<Vec<String>, NoMemory> {
    let mut words = Vec::new(alloc);
    for word in line.split_whitespace() {
        words.push(word_of(alloc, word)?)?;
    }
    Ok(words)
}

fn sink(alloc: Global, room: u32, put: u64, taken: u32) -> Result<MemorySink, NoMemory> {
    let mut sink = MemorySink::new(alloc, room)?;
    sink.fail_at(alloc, put, taken)?;
    Ok(sink)
}

fn store(alloc: Global, files: &[File<'_>], call: u64) -> Result<MemoryStore, NoMemory> {
    let mut store = MemoryStore::new(alloc)?;
    for file in files {
        store.add(alloc, file.name, &file.bytes)?;
    }
    store.fail_at(alloc, call)?;
    Ok(store)
}

/// The files, and outputs with nothing in them.
pub fn world_of(alloc: Global, files: &[File<'_>], faults: Faults) -> Result<World, NoMemory> {
    Ok(World {
        store: store(alloc, files, faults.call)?,
        out: sink(alloc, faults.room, faults.put, faults.taken)?,
        err: sink(alloc, faults.err_room, faults.err_put, faults.taken)?,
    })
}

fn run(alloc: Global, words: &[String], world: &mut World) -> u8 {
    yara_main(
        alloc,
        words,
        &mut world.store,
        &mut world.out,
        &mut world.err,
    )
    .code()
}

/// Runs the program on the words of a line, and gives the number of its status.
pub fn run_line(alloc: Global, line: &str, world: &mut World) -> Result<u8, NoMemory> {
    let words = words_of(alloc, line)?;
    Ok(run(alloc, &words, world))
}

/// Runs all commands of a row but the last.
pub fn run_before(
    alloc: Global,
    text: &str,
    last: &str,
    world: &mut World,
) -> Result<(), NoMemory> {
    for line in text.split('\n') {
        let (word, rest) = first_word(line);
        if word == "run" && rest != last {
            let _ = run_line(alloc, rest, world)?;
        }
    }
    Ok(())
}
