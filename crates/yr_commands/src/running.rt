//! Each command, and the whole run but for the messages.

ghost use Rattle.std.specs.Prelude.{◌≡◌, ◌≤◌, ◌⊎◌, ℕ, List, Option, None, Some, IfOk, codes, map, string_bytes};
ghost use Rattle.std.specs.Option.{option_map};
ghost use Rattle.yr_base.specs.Store.{Files};
ghost use Rattle.yr_outcome.specs.declared.status.Status.TheVariants as status;
ghost use Rattle.yr_outcome.specs.Clauses.{output_named, name_twice};
ghost use Rattle.yr_outcome.specs.Externals.{twice_given};
ghost use Rattle.yr_outcome.specs.Fits.{seen};
ghost use Rattle.yr_outcome.specs.Front.{Reading, IsReading};
ghost use Rattle.yr_outcome.specs.Outcome as outcome;
ghost use Rattle.yr_outcome.specs.Steps.{FitsAnswer, HasCause, IsRefusalOf};
ghost use Rattle.yr_outcome.specs.Texts.{bad_words, external_text};
ghost use Rattle.yr_words.specs.Commands.{givens_of, output_of};
ghost use Rattle.yr_words.specs.Shown.{command_shown, given_shown};
ghost use Rattle.yr_words.specs.Words.{command_of};
ghost use Rattle.yr_commands.specs.Fitting.{Fits};
ghost use Rattle.yr_commands.specs.Program.{all_setting};

use crate::checking::check;
use crate::compiling::compile;
use crate::scanning::scan;
use crate::working::work;
use std::alloc::{AllocError, Global};
use yr_base::{NoMemory, Sink, Store};
use yr_name_tables::{Name, first_twice};
use yr_outcome::{Answer, Status, refuse};
use yr_scan::scan_by_image;
use yr_words::{Command, Given, read_words};

// The values that a command's words give.
fn givens_of<'c, 'a>(command: &'c Command<'a>) -> &'c [Given<'a>]
    ensures { map given_shown result.now ≡ givens_of (command_shown command.now) }
{
    match command {
        Command::Scan { givens, .. }
        | Command::ScanImage { givens, .. }
        | Command::Compile { givens, .. }
        | Command::Check { givens, .. } => givens,
        Command::Work { .. } => &[],
    }
}

// The names that words give values to.
fn names_of<'a>(alloc: Global, givens: &[Given<'a>]) -> Result<Vec<Name<'a>>, AllocError>
    ensures { IfOk result (λ names. names.items ≡ map (λ g. g.name) (map given_shown givens.now)) }
{
    let mut names = Vec::new(alloc);
    for given in givens {
        names.push(Name::new(given.name.as_bytes()))?;
    }
    Ok(names)
}

// The first name that stands again in a later word.
fn twice<'a>(alloc: Global, givens: &[Given<'a>]) -> Result<Option<&'a [u8]>, AllocError>
    ensures { IfOk result (λ o. option_map (λ n. n.now) o ≡ twice_given (map given_shown givens.now)) }
{
    let names = names_of(alloc, givens)?;
    first_twice(alloc, &names)
}

// Runs a command of which no name is given twice.
fn run_command<'a, F: Store, O: Sink>(
    alloc: Global,
    command: &Command<'a>,
    store: &mut F,
    out: &mut O,
) -> Answer<'a>
    requires fits { Fits (command_shown command.now) }
    requires different { twice_given (givens_of (command_shown command.now)) ≡ None }
    ensures later { F.faults store.old ≤ F.faults store.new }
    ensures out_later { O.faults out.old ≤ O.faults out.new }
    ensures cause { HasCause (output_of (command_shown command.now)) result (F.faults store.old) (F.faults store.new) (O.faults out.old) (O.faults out.new) }
    ensures fits { (reading : Reading) → IsReading reading → (files : Files) → F.files store.old ≡ Some files
        → FitsAnswer all_setting (λ found. outcome.run all_setting reading found files (command_shown command.now)) result
        (seen (F.files store.old) (F.trace store.old) (O.written out.old)) (seen (F.files store.new) (F.trace store.new) (O.written out.new)) }
{
    match command {
        Command::Scan {
            flags,
            sources,
            target,
            givens,
        } => scan(alloc, *flags, sources, target, givens, store, out),
        Command::ScanImage {
            flags,
            image,
            target,
            givens,
        } => scan_by_image(alloc, *flags, image, target, givens, store, out),
        Command::Compile {
            sources,
            output,
            givens,
        } => compile(alloc, sources, output, givens, store),
        Command::Check { sources, givens } => check(alloc, sources, givens, store, out),
        Command::Work { number, size } => work(alloc, *number, *size, out),
    }
}

// Runs a command.
fn run_different<'a, F: Store, O: Sink>(
    alloc: Global,
    command: &Command<'a>,
    store: &mut F,
    out: &mut O,
) -> Answer<'a>
    requires { Fits (command_shown command.now) }
    ensures later { F.faults store.old ≤ F.faults store.new }
    ensures out_later { O.faults out.old ≤ O.faults out.new }
    ensures cause { HasCause (output_of (command_shown command.now)) result (F.faults store.old) (F.faults store.new) (O.faults out.old) (O.faults out.new) }
    ensures twice { (name : List ℕ) → twice_given (givens_of (command_shown command.now)) ≡ Some name
        → IsRefusalOf status.External (external_text name (codes "Twice")) result }
    ensures fits { (reading : Reading) → IsReading reading → (files : Files) → F.files store.old ≡ Some files
        → FitsAnswer all_setting (λ found. outcome.with_names all_setting reading found files (command_shown command.now)
        (twice_given (givens_of (command_shown command.now)))) result
        (seen (F.files store.old) (F.trace store.old) (O.written out.old)) (seen (F.files store.new) (F.trace store.new) (O.written out.new)) }
{
    match twice(alloc, givens_of(command)) {
        Ok(Some(name)) => refuse(alloc, Status::External, &[b"external ", name, b": Twice\n"]),
        Ok(None) => run_command(alloc, command, store, out),
        Err(_) => Answer::NoMemory,
    }
}

/// Runs the command that the words spell. What is to be said of it stands in the answer.
pub fn run<'a, F: Store, O: Sink>(
    alloc: Global,
    words: &'a [String],
    store: &mut F,
    out: &mut O,
) -> Answer<'a>
    ensures later { F.faults store.old ≤ F.faults store.new }
    ensures out_later { O.faults out.old ≤ O.faults out.new }
    ensures usage { command_of (map string_bytes words.now) ≡ None → IsRefusalOf status.Usage bad_words result }
    ensures cause { (command_of (map string_bytes words.now) ≡ None)
        ⊎ HasCause (output_named (map string_bytes words.now)) result (F.faults store.old) (F.faults store.new) (O.faults out.old) (O.faults out.new) }
    ensures twice { (name : List ℕ) → name_twice (map string_bytes words.now) ≡ Some name
        → IsRefusalOf status.External (external_text name (codes "Twice")) result }
    ensures fits { (reading : Reading) → IsReading reading → (files : Files) → F.files store.old ≡ Some files
        → FitsAnswer all_setting (λ found. outcome.ending_of all_setting reading found files (map string_bytes words.now)) result
        (seen (F.files store.old) (F.trace store.old) (O.written out.old)) (seen (F.files store.new) (F.trace store.new) (O.written out.new)) }
{
    match read_words(alloc, words) {
        Ok(Some(command)) => run_different(alloc, &command, store, out),
        Ok(None) => refuse(alloc, Status::Usage, &[b"bad command line\n"]),
        Err(NoMemory) => Answer::NoMemory,
    }
}
