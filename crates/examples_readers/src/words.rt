//! Command lines, and what they read as.

use std::alloc::Global;
use std::test::Fail;
use yr_base::NoMemory;
use yr_words::{Command, read_words};

// What a command line reads as: its command, how many rule files and how many values.
#[derive(Clone, Copy, Debug, PartialEq, Eq)]
enum Read {
    Nothing,
    Scan(usize, usize),
    Image(usize),
    Compile(usize, usize),
    Check(usize, usize),
    Work(u64, u32),
}

fn read_of(command: &Option<Command<'_>>) -> Read {
    match command {
        None => Read::Nothing,
        Some(
            Command::Scan {
                sources,
                givens,
                ..
            },
        ) => Read::Scan(sources.len(), givens.len()),
        Some(Command::ScanImage { givens, .. }) => Read::Image(givens.len()),
        Some(
            Command::Compile {
                sources,
                givens,
                ..
            },
        ) => Read::Compile(sources.len(), givens.len()),
        Some(Command::Check { sources, givens }) => Read::Check(sources.len(), givens.len()),
        Some(Command::Work { number, size }) => Read::Work(*number, *size),
    }
}

// Words stand between bars, so that one may be empty.
fn read_line(alloc: Global, line: &str) -> Result<Read, NoMemory> {
    let mut words = Vec::new(alloc);
    for word in line.split('|') {
        words.push(String::from_str(alloc, word)?)?;
    }
    Ok(read_of(&read_words(alloc, &words)?))
}

const ROWS: [(&str, Read); 26] = [
    ("scan|r.yar|t.bin", Read::Scan(1, 0)),
    ("scan|-ss|r.yar|t.bin", Read::Scan(1, 0)),
    ("scan|-x|r.yar|t.bin", Read::Nothing),
    ("scan|r.yar|t.bin|n=5|name=abc", Read::Scan(1, 2)),
    ("scan|r|n=5", Read::Scan(1, 0)),
    ("scan|r|n=5|x", Read::Scan(2, 0)),
    ("scan|r|t|rule=5", Read::Scan(2, 0)),
    ("scan|r|t|n=5|-n|m=6", Read::Scan(1, 2)),
    ("scan|-|", Read::Scan(1, 0)),
    ("scan|r", Read::Nothing),
    ("scan|a:|t.bin", Read::Nothing),
    ("scan|rule:|t.bin", Read::Scan(1, 0)),
    ("scan|--|-s|--", Read::Scan(1, 0)),
    ("scan|--help|r|t", Read::Nothing),
    ("scan|--stats|-e|r|t", Read::Scan(1, 0)),
    ("scan|i|-sC|t|n=1", Read::Image(1)),
    ("scan|-C|i|t|x", Read::Nothing),
    ("compile|p:a|q:b|o|n=", Read::Compile(2, 1)),
    ("compile|-s|a|o", Read::Nothing),
    ("check|r.yar", Read::Check(1, 0)),
    (
        "check|1|2|3|4|5|6|7|8|9|10|11|12|13|14|15|16",
        Read::Check(16, 0),
    ),
    (
        "check|1|2|3|4|5|6|7|8|9|10|11|12|13|14|15|16|17",
        Read::Nothing,
    ),
    ("work|007|16777216", Read::Work(7, 16_777_216)),
    ("work|1|16777217", Read::Nothing),
    ("work|18446744073709551616|1", Read::Nothing),
    ("--|scan|r|t", Read::Nothing),
];

#[test]
fn command_lines_read(rt: HostRuntime) -> Result<(), Fail> {
    let alloc = rt.alloc();
    for (line, read) in ROWS {
        assert_eq!(rt; read_line(alloc, line)?, read, "{line}");
    }
    Ok(())
}
