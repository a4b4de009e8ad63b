//! Made rules, and a made file as programs are: code, texts and zeros.

use std::alloc::{AllocError, Global};

// A rule as they often are, of this number.
fn rule(alloc: Global, number: usize) -> Result<String, AllocError> {
    format!(in alloc;
        "rule Sample_{number} {{
    strings:
        $name = \"loader_{number}.exe\" nocase wide
        $path = \"/tmp/.sample_{number}/run\" fullword
        $code = {{ 4D 5A ?? 0? [2-8] ( E8 | E9 ) 8B 45 ?C 6C 6F 61 64 }}
        $link = /https?:\\/\\/[a-z0-9.]{{3,40}}\\/sample{number}/
    condition:
        uint16(0) == 0x5a4d and filesize < 200MB and any of them
}}

"
    )
}

/// So many rules, each with other texts.
pub fn rules(alloc: Global, count: usize) -> Result<Vec<u8>, AllocError> {
    let mut text = Vec::new(alloc);
    for number in 0..count {
        text.extend_from_slice(rule(alloc, number)?.as_bytes())?;
    }
    Ok(text)
}

fn next(x: u64) -> u64 {
    x.wrapping_mul(6_364_136_223_846_793_005)
        .wrapping_add(1_442_695_040_888_963_407)
}

// A byte of the file, by its place and by a number that was drawn for it.
fn byte(place: usize, drawn: u64) -> u8 {
    let value = ((drawn >> 33) % 256) as u8;
    match place / 4096 % 8 {
        0 | 1 => 0,
        2 => b'a' + value % 26,
        _ => value,
    }
}

/// The first bytes of the file: those of a program, and a text that the rule of number 1 looks for.
const BEGIN: &[u8] = b"MZ /tmp/.sample_1/run ";

// A byte of the file: of its beginning, or drawn.
fn byte_of(place: usize, drawn: u64) -> u8 {
    match BEGIN.get(place) {
        Some(byte) => *byte,
        None => byte(place, drawn),
    }
}

/// A file of so many bytes.
pub fn target(alloc: Global, size: usize) -> Result<Vec<u8>, AllocError> {
    let mut file = Vec::with_capacity(alloc, size)?;
    let mut drawn = 1;
    for place in 0..size {
        drawn = next(drawn);
        file.push(byte_of(place, drawn))?;
    }
    Ok(file)
}
