//! The target of a scan.

ghost use Rattle.std.specs.Prelude.{◌≡◌, ◌≤◌, ℕ, List, [], ◌∷◌, length, Option, None, Some, MatchOption, IfSome, IfOk};
ghost use Rattle.yr_base.specs.Store.{Files};
ghost use Rattle.yr_outcome.specs.declared.status.Status.TheVariants as status;
ghost use Rattle.yr_outcome.specs.Answers.{Setting};
ghost use Rattle.yr_outcome.specs.Fits.{seen};
ghost use Rattle.yr_outcome.specs.Outcome.{Found, Ending, with_target};
ghost use Rattle.yr_outcome.specs.Steps.{FitsAnswer, HasRead, IsRefusalOf, HasCause};
ghost use Rattle.yr_outcome.specs.Texts.{too_long};

use crate::answer::Answer;
use crate::status::Status;
use std::alloc::{AllocError, Global};
use yr_base::{ReadAnswer, Store};

/// The most bytes of a target.
const MAX_TARGET: u32 = 268_435_456;

fn too_long_text(alloc: Global, target: &str) -> Result<Vec<u8>, AllocError>
    ensures { IfOk result (λ text. text.items ≡ too_long target.now) }
{
    let mut text = Vec::new(alloc);
    text.extend_from_slice(target.as_bytes())?;
    text.extend_from_slice(b": too long\n")?;
    Ok(text)
}

fn long_target<'a>(alloc: Global, target: &str) -> Answer<'a>
    ensures { IsRefusalOf status.LongTarget (too_long target.now) result }
{
    match too_long_text(alloc, target) {
        Ok(text) => Answer::Refused {
            status: Status::LongTarget,
            text,
        },
        Err(_) => Answer::NoMemory,
    }
}

/// Reads a target; an answer is how the scan ends without it.
pub fn read_target<'a, F: Store>(
    alloc: Global,
    target: &'a str,
    store: &mut F,
    into: &mut Vec<u8>,
) -> Option<Answer<'a>>
    requires { into.old.items ≡ [] }
    ensures fits { (setting : Setting) (files : Files) → F.files store.old ≡ Some files → (out : Option (List ℕ))
        → (answer : Found → List ℕ → Ending) → MatchOption result
        ((files target.now ≡ Some into.new.items) × (length into.new.items ≤ 268435456)
        × HasRead (target.now ∷ []) (seen (F.files store.old) (F.trace store.old) out) (seen (F.files store.new) (F.trace store.new) out))
        (λ a. FitsAnswer setting (λ found. with_target files target.now (answer found)) a
        (seen (F.files store.old) (F.trace store.old) out) (seen (F.files store.new) (F.trace store.new) out)) }
    ensures short { result ≡ None → length into.new.items ≤ 268435456 }
    ensures files { F.files store.new ≡ F.files store.old }
    ensures later { F.faults store.old ≤ F.faults store.new }
    ensures cause { (output : Option (List ℕ)) (before after : ℕ)
        → IfSome result (λ a. HasCause output a (F.faults store.old) (F.faults store.new) before after) }
{
    match store.read_file(alloc, target, MAX_TARGET, into) {
        ReadAnswer::Done => None,
        ReadAnswer::Long => Some(long_target(alloc, target)),
        ReadAnswer::Failed => Some(Answer::Unread(target)),
        ReadAnswer::NoMemory => Some(Answer::NoMemory),
    }
}
