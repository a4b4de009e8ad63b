//! Rows of a table.

use crate::files::{File, byte, bytes_of, change, first_word, number};
use crate::running::World;
use std::alloc::Global;
use yr_base::NoMemory;

/// The words of lines that change files.
const FILE_WORDS: [&str; 7] = ["file", "more", "hex", "many", "zeros", "cut", "byte"];

/// The words of the other lines.
const WORDS: [&str; 9] = [
    "", "run", "scan", "out", "err", "status", "holds", "calls", "puts",
];

/// A command with its files, and what it must answer.
#[derive(Drop)]
pub struct Row<'a> {
    pub text: &'a str,
    pub files: Vec<File<'a>>,
    pub out: Vec<u8>,
    pub err: Vec<u8>,
    pub status: u8,
}

fn is_one_of(word: &str, words: &[&str]) -> bool {
    for one in words {
        if *one == word {
            return true;
        }
    }
    false
}

/// What the last line of this word says.
pub fn last_of<'a>(text: &'a str, key: &str) -> Option<&'a str> {
    let mut found = None;
    for line in text.split('\n') {
        let (word, rest) = first_word(line);
        if word == key {
            found = Some(rest);
        }
    }
    found
}

// What all lines of this word say, each with a line feed.
fn lines_of(alloc: Global, text: &str, key: &str) -> Result<Vec<u8>, NoMemory> {
    let mut bytes = Vec::new(alloc);
    for line in text.split('\n') {
        let (word, rest) = first_word(line);
        if word == key {
            bytes.extend_from_slice(rest.as_bytes())?;
            bytes.push(b'\n')?;
        }
    }
    Ok(bytes)
}

fn put_file<'a>(files: &mut Vec<File<'a>>, alloc: Global, line: &'a str) -> Result<(), NoMemory> {
    let (key, rest) = first_word(line);
    if is_one_of(key, &FILE_WORDS) {
        let (name, rest) = first_word(rest);
        let mut bytes = Vec::from_slice(alloc, bytes_of(files, name))?;
        change(&mut bytes, key, rest)?;
        files.push(File { name, bytes })?;
    }
    Ok(())
}

fn files_of<'a>(alloc: Global, text: &'a str) -> Result<Vec<File<'a>>, NoMemory> {
    let mut files = Vec::new(alloc);
    for line in text.split('\n') {
        put_file(&mut files, alloc, line)?;
    }
    Ok(files)
}

/// The words of the last command.
pub fn command_of(alloc: Global, text: &str) -> Result<String, NoMemory> {
    let mut command = String::new(alloc);
    match last_of(text, "run") {
        Some(words) => command.push_str(words)?,
        None => {
            command.push_str("scan ")?;
            command.push_str(last_of(text, "scan").unwrap_or(""))?;
        }
    }
    Ok(command)
}

/// Whether each line says something.
pub fn is_read(text: &str) -> bool {
    for line in text.split('\n') {
        let (word, _) = first_word(line);
        if !is_one_of(word, &WORDS) && !is_one_of(word, &FILE_WORDS) {
            return false;
        }
    }
    true
}

/// A row, from its lines.
pub fn read_row<'a>(alloc: Global, text: &'a str) -> Result<Row<'a>, NoMemory> {
    let status = last_of(text, "status").unwrap_or("0");
    Ok(Row {
        text,
        files: files_of(alloc, text)?,
        out: lines_of(alloc, text, "out")?,
        err: lines_of(alloc, text, "err")?,
        status: (number(status) % 256) as u8,
    })
}

// Whether a file has these bytes at this place, or is not there where the line is its name alone.
fn holds(world: &World, line: &str) -> bool {
    let (name, rest) = first_word(line);
    let Some(bytes) = world.store.get(name) else {
        return rest.is_empty();
    };
    let (place, words) = first_word(rest);
    let mut place = number(place);
    for word in words.split_whitespace() {
        if bytes.get(place) != Some(&byte(word)) {
            return false;
        }
        place = place.saturating_add(1);
    }
    !rest.is_empty()
}

impl Row<'_> {
    /// Whether this is the answer of the row.
    pub fn is_answered(&self, status: u8, world: &World) -> bool {
        status == self.status
            && world.out.bytes() == self.out.as_slice()
            && world.err.bytes() == self.err.as_slice()
    }

    /// Whether the files are as the row says.
    pub fn has_files(&self, world: &World) -> bool {
        for line in self.text.split('\n') {
            let (word, rest) = first_word(line);
            if word == "holds" && !holds(world, rest) {
                return false;
            }
        }
        true
    }
}
