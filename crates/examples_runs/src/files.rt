//! Files of a row, by name.

use yr_base::NoMemory;

/// A file as one line of a row leaves it. Of two of one name the later counts.
#[derive(Drop)]
pub struct File<'a> {
    pub name: &'a str,
    pub bytes: Vec<u8>,
}

/// The bytes of a file, none where there is no such file.
pub fn bytes_of<'f>(files: &'f [File<'_>], name: &str) -> &'f [u8] {
    let mut found = b"".as_slice();
    for file in files {
        if file.name == name {
            found = file.bytes.as_slice();
        }
    }
    found
}

/// The number that a word spells, 0 where it spells none.
pub fn number(word: &str) -> usize {
    match word.parse::<usize>() {
        Ok(n) => n,
        Err(_) => 0,
    }
}

/// The byte that a word spells in hexadecimal, 0 where it spells none.
pub fn byte(word: &str) -> u8 {
    match u8::from_str_radix(word, 16) {
        Ok(b) => b,
        Err(_) => 0,
    }
}

/// A line's first word, and what follows the blank behind it.
pub fn first_word(line: &str) -> (&str, &str) {
    match line.split_once(' ') {
        Some(parts) => parts,
        None => (line, ""),
    }
}

fn set(bytes: &mut Vec<u8>, text: &str) -> Result<(), NoMemory> {
    bytes.clear();
    bytes.extend_from_slice(text.as_bytes())?;
    Ok(())
}

fn put_more(bytes: &mut Vec<u8>, text: &str) -> Result<(), NoMemory> {
    bytes.push(b'\n')?;
    bytes.extend_from_slice(text.as_bytes())?;
    Ok(())
}

fn put_hex(bytes: &mut Vec<u8>, words: &str) -> Result<(), NoMemory> {
    for word in words.split_whitespace() {
        bytes.push(byte(word))?;
    }
    Ok(())
}

fn put_many(bytes: &mut Vec<u8>, line: &str) -> Result<(), NoMemory> {
    let (count, text) = first_word(line);
    for _ in 0..number(count) {
        bytes.extend_from_slice(text.as_bytes())?;
    }
    Ok(())
}

fn fill(bytes: &mut Vec<u8>, line: &str) -> Result<(), NoMemory> {
    bytes.resize(number(line), 0)?;
    Ok(())
}

fn replace(bytes: &mut [u8], line: &str) {
    let (place, words) = first_word(line);
    let mut place = number(place);
    for word in words.split_whitespace() {
        if let Some(changed) = bytes.get_mut(place) {
            *changed = byte(word);
        }
        place = place.saturating_add(1);
    }
}

/// Changes a file by a line of its row.
pub fn change(bytes: &mut Vec<u8>, key: &str, line: &str) -> Result<(), NoMemory> {
    match key {
        "file" => set(bytes, line),
        "more" => put_more(bytes, line),
        "hex" => put_hex(bytes, line),
        "many" => put_many(bytes, line),
        "zeros" => fill(bytes, line),
        "cut" => {
            bytes.truncate(number(line));
            Ok(())
        }
        _ => {
            replace(bytes, line);
            Ok(())
        }
    }
}
