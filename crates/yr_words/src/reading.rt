//! The command that words spell.

ghost use Rattle.std.specs.Prelude.{◌≡◌, ◌≤◌, length, take, drop, map, string_bytes, IfOk};
ghost use Rattle.std.specs.Option.{option_map};
ghost use Rattle.yr_words.specs.Words as plain;
ghost use Rattle.yr_words.specs.Shown.{lent_words, flags_shown, command_shown};

use crate::command::{Command, Flags};
use crate::number::number_up_to;
use crate::parting::{Parts, are_scan_flags, has_letter, parts_of, scan_flags};
use crate::splitting::{givens_from, givens_of, sources_end, sources_to, split_places};
use std::alloc::Global;
use yr_base::NoMemory;

const MAX_SIZE: u64 = 16_777_216;

fn scan_image<'a>(
    alloc: Global,
    flags: Flags,
    places: &[&'a str],
) -> Result<Option<Command<'a>>, NoMemory>
    ensures { IfOk result (λ c. option_map command_shown c ≡ plain.scan_image_of (flags_shown flags) (lent_words places.now)) }
{
    let [image, target, words @ ..] = places else {
        return Ok(None);
    };
    let Some(givens) = givens_of(alloc, words)? else {
        return Ok(None);
    };
    Ok(Some(Command::ScanImage {
        flags,
        image,
        target,
        givens,
    }))
}

fn work<'a>(places: &[&'a str]) -> Option<Command<'a>>
    ensures { option_map command_shown result ≡ plain.work_of (lent_words places.now) }
{
    let [number, size] = places else {
        return None;
    };
    let number = number_up_to(u64::MAX, number)?;
    let size = number_up_to(MAX_SIZE, size)? as u32;
    Some(Command::Work { number, size })
}

fn scan<'a>(
    alloc: Global,
    flags: Flags,
    places: &[&'a str],
) -> Result<Option<Command<'a>>, NoMemory>
    ensures { IfOk result (λ c. option_map command_shown c ≡ plain.scan_of (flags_shown flags) (lent_words places.now)) }
{
    let Some(split) = split_places(alloc, places)? else {
        return Ok(None);
    };
    Ok(Some(Command::Scan {
        flags,
        sources: split.sources,
        target: split.file,
        givens: split.givens,
    }))
}

fn compile<'a>(alloc: Global, places: &[&'a str]) -> Result<Option<Command<'a>>, NoMemory>
    ensures { IfOk result (λ c. option_map command_shown c ≡ plain.compile_of (lent_words places.now)) }
{
    let Some(split) = split_places(alloc, places)? else {
        return Ok(None);
    };
    Ok(Some(Command::Compile {
        sources: split.sources,
        output: split.file,
        givens: split.givens,
    }))
}

fn check_to<'a>(
    alloc: Global,
    places: &[&'a str],
    end: usize,
) -> Result<Option<Command<'a>>, NoMemory>
    requires { end ≤ length places.now }
    ensures { IfOk result (λ c. option_map command_shown c ≡ plain.check_by (take end (lent_words places.now)) (drop end (lent_words places.now))) }
{
    let Some(sources) = sources_to(alloc, places, end)? else {
        return Ok(None);
    };
    let Some(givens) = givens_from(alloc, places, end)? else {
        return Ok(None);
    };
    Ok(Some(Command::Check { sources, givens }))
}

fn check<'a>(alloc: Global, places: &[&'a str]) -> Result<Option<Command<'a>>, NoMemory>
    ensures { IfOk result (λ c. option_map command_shown c ≡ plain.check_of (lent_words places.now)) }
{
    if places.is_empty() {
        return Ok(None);
    }
    let end = sources_end(places);
    check_to(alloc, places, end)
}

fn scan_with<'a>(alloc: Global, parts: &Parts<'a>) -> Result<Option<Command<'a>>, NoMemory>
    ensures { IfOk result (λ c. option_map command_shown c ≡ plain.scan_by (lent_words parts.now.flags.items) (lent_words parts.now.places.items)) }
{
    let flags = parts.flags.as_slice();
    if !are_scan_flags(flags) {
        return Ok(None);
    }
    let shown = scan_flags(flags);
    if has_letter(b'C', flags) {
        scan_image(alloc, shown, parts.places.as_slice())
    } else {
        scan(alloc, shown, parts.places.as_slice())
    }
}

fn without_flags<'a>(
    alloc: Global,
    name: &str,
    places: &[&'a str],
) -> Result<Option<Command<'a>>, NoMemory>
    ensures { IfOk result (λ c. option_map command_shown c ≡ plain.plain_command name.now (lent_words places.now)) }
{
    if name == "compile" {
        compile(alloc, places)
    } else if name == "check" {
        check(alloc, places)
    } else if name == "work" {
        Ok(work(places))
    } else {
        Ok(None)
    }
}

/// The command that the words spell, or none.
pub fn read_words<'a>(alloc: Global, words: &'a [String]) -> Result<Option<Command<'a>>, NoMemory>
    ensures { IfOk result (λ c. option_map command_shown c ≡ plain.command_of (map string_bytes words.now)) }
{
    let [name, rest @ ..] = words else {
        return Ok(None);
    };
    let parts = parts_of(alloc, rest)?;
    if name.as_str() == "scan" {
        return scan_with(alloc, &parts);
    }
    if !parts.flags.is_empty() {
        return Ok(None);
    }
    without_flags(alloc, name.as_str(), parts.places.as_slice())
}
