//! The flags of a command, and its positionals.

ghost use Rattle.std.specs.Prelude.{◌≡◌, ◌++◌, map, string_bytes, IfOk};
ghost use Rattle.std.specs.List.{list_all, list_any};
ghost use Rattle.yr_words.specs.Words as plain;
ghost use Rattle.yr_words.specs.Shown.{lent_words, flags_shown};

use crate::command::Flags;
use std::alloc::Global;
use yr_base::NoMemory;

/// The words of flags, and the positionals.
#[derive(Debug, Drop)]
pub struct Parts<'a> {
    pub flags: Vec<&'a str>,
    pub places: Vec<&'a str>,
}

fn is_divider(word: &str) -> bool
    ensures { result ≡ plain.is_divider word.now }
{
    word == "--"
}

fn is_dashed(word: &str) -> bool
    ensures { result ≡ plain.is_dashed word.now }
{
    match word.as_bytes() {
        [first, _, ..] => *first == b'-',
        _ => false,
    }
}

fn push_all<'a>(places: &mut Vec<&'a str>, words: &'a [String]) -> Result<(), NoMemory>
    ensures { IfOk result (λ u. lent_words places.new.items ≡ lent_words places.old.items ++ map string_bytes words.now) }
{
    let mut rest = words;
    while let [word, more @ ..] = rest {
        places.push(word.as_str())?;
        rest = more;
    }
    Ok(())
}

/// The parts of the words after the name of a command.
pub fn parts_of<'a>(alloc: Global, words: &'a [String]) -> Result<Parts<'a>, NoMemory>
    ensures flags { IfOk result (λ p. lent_words p.flags.items ≡ plain.flags_of (map string_bytes words.now)) }
    ensures places { IfOk result (λ p. lent_words p.places.items ≡ plain.places_of (map string_bytes words.now)) }
{
    let mut flags = Vec::new(alloc);
    let mut places = Vec::new(alloc);
    let mut rest = words;
    while let [word, more @ ..] = rest {
        if is_divider(word.as_str()) {
            push_all(&mut places, more)?;
            return Ok(Parts { flags, places });
        }
        if is_dashed(word.as_str()) {
            flags.push(word.as_str())?;
        } else {
            places.push(word.as_str())?;
        }
        rest = more;
    }
    Ok(Parts { flags, places })
}

fn is_stats(word: &str) -> bool
    ensures { result ≡ plain.is_stats word.now }
{
    word == "--stats"
}

fn has_byte(bytes: &[u8], letter: u8) -> bool
    ensures { result ≡ plain.has_byte letter bytes.now }
{
    bytes.contains(&letter)
}

fn has_letter_in(letter: u8, word: &str) -> bool
    ensures { result ≡ plain.has_letter_in letter word.now }
{
    match word.as_bytes() {
        [_, letters @ ..] if !is_stats(word) => has_byte(letters, letter),
        _ => false,
    }
}

fn some_has_letter(letter: u8, flags: &[&str]) -> bool
    ensures { result ≡ list_any (λ w. plain.has_letter_in letter w.now) flags.now }
{
    flags.iter().any(|word| has_letter_in(letter, word))
}

/// Whether the letter stands in a word of flags.
pub fn has_letter(letter: u8, flags: &[&str]) -> bool
    ensures { result ≡ plain.has_letter letter (lent_words flags.now) }
{
    some_has_letter(letter, flags)
}

fn is_scan_letter(letter: u8) -> bool
    ensures { result ≡ plain.has_byte letter plain.scan_letters }
{
    has_byte(b"Csgmnce", letter)
}

fn are_scan_letters(letters: &[u8]) -> bool
    ensures { result ≡ list_all (λ b. plain.has_byte b plain.scan_letters) letters.now }
{
    letters.iter().all(|b| is_scan_letter(*b))
}

fn is_scan_flag(word: &str) -> bool
    ensures { result ≡ plain.is_flag_of plain.scan_letters word.now }
{
    match word.as_bytes() {
        [_, letters @ ..] => is_stats(word) || are_scan_letters(letters),
        [] => true,
    }
}

fn all_are_scan_flags(flags: &[&str]) -> bool
    ensures { result ≡ list_all (λ w. plain.is_flag_of plain.scan_letters w.now) flags.now }
{
    flags.iter().all(|word| is_scan_flag(word))
}

/// Whether all of them are flags of a scan.
pub fn are_scan_flags(flags: &[&str]) -> bool
    ensures { result ≡ list_all (plain.is_flag_of plain.scan_letters) (lent_words flags.now) }
{
    all_are_scan_flags(flags)
}

fn some_asks_stats(flags: &[&str]) -> bool
    ensures { result ≡ list_any (λ w. plain.is_stats w.now) flags.now }
{
    flags.iter().any(|word| is_stats(word))
}

fn asks_stats(flags: &[&str]) -> bool
    ensures { result ≡ plain.asks_stats (lent_words flags.now) }
{
    some_asks_stats(flags)
}

/// The flags that the words ask for.
pub fn scan_flags(flags: &[&str]) -> Flags
    ensures { flags_shown result ≡ plain.scan_flags (lent_words flags.now) }
{
    Flags {
        strings: has_letter(b's', flags),
        tags: has_letter(b'g', flags),
        meta: has_letter(b'm', flags),
        negate: has_letter(b'n', flags),
        count: has_letter(b'c', flags),
        spaces: has_letter(b'e', flags),
        stats: asks_stats(flags),
    }
}
