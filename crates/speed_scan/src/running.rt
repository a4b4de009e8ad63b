//! The program over files in memory.

use anyhow::bail;
use std::alloc::Global;
use yr_base::{MemorySink, MemoryStore};
use yr_commands::yara_main;

/// The most bytes that a report may have here.
const ROOM: u32 = 1_000_000;

/// A store with rules, a target, and the image of the rules.
pub fn files(alloc: Global, rules: &[u8], target: &[u8]) -> anyhow::Result<MemoryStore> {
    let Ok(mut store) = MemoryStore::new(alloc) else {
        bail!("no memory");
    };
    let Ok(()) = store.add(alloc, "r.yar", rules) else {
        bail!("no memory");
    };
    let Ok(()) = store.add(alloc, "t.bin", target) else {
        bail!("no memory");
    };
    let (_status, _written) = run(alloc, "compile r.yar r.img", &mut store)?;
    Ok(store)
}

/// The status of a command line, and how many bytes it wrote.
pub fn run(alloc: Global, line: &str, store: &mut MemoryStore) -> anyhow::Result<(u8, usize)> {
    let mut words = Vec::new(alloc);
    for word in line.split_whitespace() {
        words.push(String::from_str(alloc, word)?)?;
    }
    let Ok(mut out) = MemorySink::new(alloc, ROOM) else {
        bail!("no memory");
    };
    let Ok(mut err) = MemorySink::new(alloc, ROOM) else {
        bail!("no memory");
    };
    let status = yara_main(alloc, &words, store, &mut out, &mut err);
    Ok((status.code(), out.bytes().len()))
}
