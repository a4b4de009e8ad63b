//! Walks over the ends of a program from every place of a file, beside a search for the end from
//! each place.

mod timing;

use crate::move_programs::{Program, gap, nested, runs};
use crate::texts::{file_or_drawn, repeated};
use std::alloc::{AllocError, Global};
use timing::{By, find, time};

/// How many bytes the walk goes over.
const TEXT: usize = 10_000_000;

/// How many bytes the end is searched from each of.
const FEW: usize = 10_000;

// What the programs run over.
#[derive(Drop)]
struct Texts {
    long: Vec<u8>,
    half: Vec<u8>,
    both: Vec<u8>,
    few: Vec<u8>,
    fewer: Vec<u8>,
    file: Vec<u8>,
}

/// Prints how many places of a short text have an end, by both ways.
pub fn show_all(rt: HostRuntime) -> anyhow::Result<()> {
    let alloc = rt.alloc();
    show(rt, "/a.*b/s", &runs(alloc)?)?;
    show(rt, "/(a+)+b/", &nested(alloc)?)?;
    show(rt, "{ 61 [0-200] 62 }", &gap(alloc)?)
}

/// Prints how fast both ways are over the file at this path, or over drawn bytes, and over made
/// texts.
pub fn time_all(rt: HostRuntime, path: Option<&str>) -> anyhow::Result<()> {
    let alloc = rt.alloc();
    let file = file_or_drawn(rt, path)?;
    let texts = texts_with(alloc, file)?;
    time_program(rt, "/a.*b/s", &runs(alloc)?, &texts)?;
    time_program(rt, "/(a+)+b/", &nested(alloc)?, &texts)?;
    time_program(rt, "{ 61 [0-200] 62 }", &gap(alloc)?, &texts)
}

fn texts_with(alloc: Global, file: Vec<u8>) -> Result<Texts, AllocError> {
    let long = closed(alloc, b"a", TEXT)?;
    let half = closed(alloc, b"a", TEXT / 2)?;
    let both = closed(alloc, b"ab", TEXT / 10)?;
    let few = closed(alloc, b"a", FEW)?;
    let fewer = closed(alloc, b"a", FEW / 2)?;
    Ok(Texts {
        long,
        half,
        both,
        few,
        fewer,
        file,
    })
}

fn time_program(
    rt: HostRuntime,
    name: &str,
    program: &Program,
    texts: &Texts,
) -> anyhow::Result<()> {
    time(rt, name, "a, walk", By::Walk, program, &texts.long)?;
    time(rt, name, "half of a, walk", By::Walk, program, &texts.half)?;
    time(rt, name, "ab, walk", By::Walk, program, &texts.both)?;
    time(rt, name, "file, walk", By::Walk, program, &texts.file)?;
    time(rt, name, "few a, walk", By::Walk, program, &texts.few)?;
    time(rt, name, "few a, each place", By::Each, program, &texts.few)?;
    time(
        rt,
        name,
        "fewer a, each place",
        By::Each,
        program,
        &texts.fewer,
    )
}

// A piece again and again, and one b.
fn closed(alloc: Global, piece: &[u8], size: usize) -> Result<Vec<u8>, AllocError> {
    let mut text = repeated(alloc, piece, size)?;
    text.push(b'b')?;
    Ok(text)
}

// How many places have an end, and the sum of the ends, by both.
fn show(rt: HostRuntime, name: &str, program: &Program) -> anyhow::Result<()> {
    let text = b"xaabaab";
    let walked = find(rt.alloc(), By::Walk, program, text);
    let asked = find(rt.alloc(), By::Each, program, text);
    println!(rt;
        "{name}: {} places, ends {}; asked one by one: {} places, ends {}",
        walked.places, walked.ends, asked.places, asked.ends
    )?;
    Ok(())
}
