//! The whole answer, on the output or in a file.

ghost use Rattle.std.specs.Prelude.{◌≡◌, ◌≤◌, ℕ, List, Option, Some, None};
ghost use Rattle.yr_base.specs.Store.{Files};
ghost use Rattle.yr_base.specs.Trace.{Entry};
ghost use Rattle.yr_outcome.specs.Answers.{Setting};
ghost use Rattle.yr_outcome.specs.Fits.{seen};
ghost use Rattle.yr_outcome.specs.Outcome.{Found, Ending, Claim, Holds, shown, written};
ghost use Rattle.yr_outcome.specs.Steps.{FitsAnswer, HasCause};

use crate::answer::Answer;
use std::alloc::Global;
use yr_base::{PutAnswer, Sink, Store, WriteAnswer};

/// Puts a whole answer.
pub fn show<'a, O: Sink>(out: &mut O, text: &[u8]) -> Answer<'a>
    ensures fits { (setting : Setting) (files : Files) (told : Option Files) → told ≡ Some files → (trace : Option (List Entry))
        → (e : Found → Ending) (found : Found) (claim : Claim) → e found ≡ shown files text.now claim → Holds setting found claim
        → FitsAnswer setting e result (seen told trace (O.written out.old)) (seen told trace (O.written out.new)) }
    ensures later { O.faults out.old ≤ O.faults out.new }
    ensures cause { (before after : ℕ) → HasCause None result before after (O.faults out.old) (O.faults out.new) }
{
    match out.put(text) {
        PutAnswer::Done => Answer::Done,
        PutAnswer::Failed => Answer::Unwritten(None),
    }
}

/// Writes a whole answer to a file.
pub fn write_output<'a, F: Store>(
    alloc: Global,
    name: &'a str,
    bytes: &[u8],
    store: &mut F,
) -> Answer<'a>
    ensures fits { (setting : Setting) (files : Files) → F.files store.old ≡ Some files → (out : Option (List ℕ))
        → (e : Found → Ending) (found : Found) (claim : Claim) → e found ≡ written files name.now bytes.now claim → Holds setting found claim
        → FitsAnswer setting e result (seen (F.files store.old) (F.trace store.old) out) (seen (F.files store.new) (F.trace store.new) out) }
    ensures later { F.faults store.old ≤ F.faults store.new }
    ensures cause { (before after : ℕ) → HasCause (Some name.now) result (F.faults store.old) (F.faults store.new) before after }
{
    match store.write_file(alloc, name, bytes) {
        WriteAnswer::Done => Answer::Done,
        WriteAnswer::Failed => Answer::Unwritten(Some(name)),
        WriteAnswer::NoMemory => Answer::NoMemory,
    }
}
