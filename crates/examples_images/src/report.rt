//! Reports on a small image, and the puts that they are.

mod puts;
mod readable;
mod sample;
mod trial;

use puts::Puts;
use sample::EVERY_BYTE;
use std::alloc::{AllocError, Global};
use std::test::Fail;
use trial::sample_report;
use yr_base::{MemorySink, NoMemory, PutAnswer};

/// The letters of the words, a truth for each rule, and the report before and after the text of every byte.
const ROWS: [(&str, &str, &str, &str); 9] = [
    ("", "1111", "a t.bin\ng t.bin\nt t.bin\n", ""),
    (
        "gs",
        "1110",
        "a [t,u] t.bin\n0x0:1:$a\n0x1a:2:$a\n0xffffffff:4294967295:$a\ng [] t.bin\n0x10:10:$\n",
        "",
    ),
    (
        "gme",
        "1111",
        "default:a [t,u] [k=",
        ",k=-9223372036854775808,k=9223372036854775807,k=true,k=false] t.bin\n\
        n:g [] [] t.bin\nn:t [] [] t.bin\n",
    ),
    ("", "1011", "a t.bin\n", ""),
    ("n", "0000", "a t.bin\n", ""),
    ("n", "0101", "a t.bin\n", ""),
    ("n", "1101", "", ""),
    ("cs", "1111", "3\n", ""),
    ("cn", "1101", "0\n", ""),
];

/// The lines of a report.
const LINES: [&str; 6] = [
    "a [t,u] t.bin\n",
    "0x0:1:$a\n",
    "0x1a:2:$a\n",
    "0xffffffff:4294967295:$a\n",
    "g [] t.bin\n",
    "0x10:10:$\n",
];

// Lines, and the first two bytes of one more.
fn cut(alloc: Global, lines: &[&str], last: &str) -> Result<Vec<u8>, AllocError> {
    let mut all = Vec::new(alloc);
    for line in lines {
        all.extend_from_slice(line.as_bytes())?;
    }
    for byte in last.as_bytes().iter().take(2) {
        all.push(*byte)?;
    }
    Ok(all)
}

// The pieces of a row's report.
fn expected(alloc: Global, before: &str, after: &str) -> Result<Vec<u8>, AllocError> {
    let mut all = Vec::from_slice(alloc, before.as_bytes())?;
    if !after.is_empty() {
        all.extend_from_slice(EVERY_BYTE.as_bytes())?;
    }
    all.extend_from_slice(after.as_bytes())?;
    Ok(all)
}

// What is written, and the answer.
fn written(
    alloc: Global,
    letters: &str,
    judged: &str,
    fails: Option<(u64, u32)>,
) -> Result<(Option<PutAnswer>, Vec<u8>), NoMemory> {
    let mut out = MemorySink::new(alloc, 4096)?;
    if let Some((call, taken)) = fails {
        out.fail_at(alloc, call, taken)?;
    }
    let answer = sample_report(alloc, letters, judged, "t.bin", &mut out)?;
    Ok((answer, Vec::from_slice(alloc, out.bytes())?))
}

#[test]
fn reports_have_the_lines_that_are_asked_for(rt: HostRuntime) -> Result<(), Fail> {
    let alloc = rt.alloc();
    for (letters, judged, before, after) in ROWS {
        let (answer, bytes) = written(alloc, letters, judged, None)?;
        assert_eq!(rt; answer, Some(PutAnswer::Done), "-{letters} on {judged}");
        assert_eq!(rt;
            bytes,
            expected(alloc, before, after)?,
            "-{letters} on {judged}"
        );
    }
    for call in 0..LINES.len() {
        let (answer, bytes) = written(alloc, "gs", "1110", Some((call as u64 + 1, 2)))?;
        assert_eq!(rt; answer, Some(PutAnswer::Failed), "put {call}");
        assert_eq!(rt;
            bytes,
            cut(alloc, &LINES[..call], LINES[call])?,
            "put {call}"
        );
    }
    Ok(())
}

// The puts and the lines of the report on a target whose name has this length.
fn puts_of(alloc: Global, letters: &str, length: u32) -> Result<Puts, NoMemory> {
    let mut target = String::new(alloc);
    for _ in 0..length {
        target.push('t')?;
    }
    let mut out = Puts::new();
    let _ = sample_report(alloc, letters, "1000", target.as_str(), &mut out)?;
    Ok(out)
}

#[test]
fn a_line_of_512_bytes_is_one_put(rt: HostRuntime) -> Result<(), Fail> {
    for (letters, length, puts, lines) in [
        ("", 508, 1, 1),
        ("", 509, 1, 1),
        ("", 510, 2, 1),
        ("", 512, 3, 1),
        ("", 513, 3, 1),
        ("s", 509, 4, 4),
        ("gs", 509, 5, 4),
        ("m", 5, 2, 1),
        ("c", 600, 1, 1),
    ] {
        let out = puts_of(rt.alloc(), letters, length)?;
        assert_eq!(rt;
            (out.puts, out.lines, out.mixed),
            (puts, lines, false),
            "-{letters}, {length} bytes"
        );
    }
    Ok(())
}
