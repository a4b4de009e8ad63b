//! What is said of an answer.

ghost use Rattle.std.specs.Prelude.{◌≡◌, ℕ, List, IfOk};
ghost use Rattle.std.specs.List.{flat_map};
ghost use Rattle.yr_outcome.specs.Fits.{Says};
ghost use Rattle.yr_outcome.specs.Steps.{IsRefusalOf, status_of, text_of};
ghost use Rattle.yr_outcome.specs.Texts.{unwritten};

use crate::answer::Answer;
use crate::status::Status;
use std::alloc::{AllocError, Global};
use yr_base::{Sink, put_all};

/// The pieces of a text, joined.
pub fn join(alloc: Global, pieces: &[&[u8]]) -> Result<Vec<u8>, AllocError>
    ensures { IfOk result (λ text. text.items ≡ flat_map (λ p. p.now) pieces.now) }
{
    let mut text = Vec::new(alloc);
    for piece in pieces {
        text.extend_from_slice(piece)?;
    }
    Ok(text)
}

/// The refusal with this status and this text, in pieces.
pub fn refuse<'a>(alloc: Global, status: Status, pieces: &[&[u8]]) -> Answer<'a>
    ensures { (text : List ℕ) → text ≡ flat_map (λ p. p.now) pieces.now → IsRefusalOf status text result }
{
    match join(alloc, pieces) {
        Ok(text) => Answer::Refused { status, text },
        Err(_) => Answer::NoMemory,
    }
}

// Puts pieces of a text, as far as that goes.
fn say<E: Sink>(err: &mut E, pieces: &[&[u8]])
    ensures { (text : List ℕ) → text ≡ flat_map (λ p. p.now) pieces.now
        → Says (E.written err.old) (E.written err.new) text (E.faults err.old) (E.faults err.new) }
{
    let _ = put_all(err, pieces);
}

// Says that a file could not be written.
fn say_unwritten<E: Sink>(err: &mut E, name: &str)
    ensures { (text : List ℕ) → text ≡ unwritten name.now
        → Says (E.written err.old) (E.written err.new) text (E.faults err.old) (E.faults err.new) }
{
    say(err, &[b"cannot write ", name.as_bytes(), b"\n"]);
}

/// Says what is to be said of an answer, and gives its status.
pub fn tell<E: Sink>(answer: Answer<'_>, err: &mut E) -> Status
    ensures status { result ≡ status_of answer.entry }
    ensures said { Says (E.written err.old) (E.written err.new) (text_of answer.entry)
        (E.faults err.old) (E.faults err.new) }
{
    match answer {
        Answer::Done => Status::Done,
        Answer::Refused { status, text } => {
            say(err, &[text.as_slice()]);
            status
        }
        Answer::Unread(name) => {
            say(err, &[b"cannot read ", name.as_bytes(), b"\n"]);
            Status::ReadFault
        }
        Answer::UnreadFile(name) => {
            say(err, &[b"cannot read ", name.as_bytes(), b"\n"]);
            Status::ReadFault
        }
        Answer::Unwritten(None) => {
            say_unwritten(err, "output");
            Status::WriteFault
        }
        Answer::Unwritten(Some(name)) => {
            say_unwritten(err, name);
            Status::WriteFault
        }
        Answer::NoMemory => {
            say(err, &[b"out of memory\n"]);
            Status::NoMemory
        }
    }
}
