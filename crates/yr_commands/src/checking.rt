//! `check`: how many rules and strings there are.

ghost use Rattle.std.specs.Prelude.{◌≡◌, ◌≤◌, ℕ, List, Option, Some, None, All, IfOk, length, map};
ghost use Rattle.yr_base.specs.Store.{Files};
ghost use Rattle.yr_base.specs.Trace.{Entry};
ghost use Rattle.yr_outcome.specs.Answers.{Setting, check_line};
ghost use Rattle.yr_outcome.specs.Fits.{seen};
ghost use Rattle.yr_outcome.specs.Front.{Reading, IsReading};
ghost use Rattle.yr_outcome.specs.Front as front;
ghost use Rattle.yr_outcome.specs.Outcome as outcome;
ghost use Rattle.yr_outcome.specs.Steps.{FitsAnswer, HasCause};
ghost use Rattle.yr_rules.specs.Rules.{rules_of};
ghost use Rattle.yr_rules.specs.Wellformed.{IsShortWord};
ghost use Rattle.yr_checks.specs.Resolving.{AreExternals};
ghost use Rattle.yr_words.specs.Commands.{Check};
ghost use Rattle.yr_words.specs.Shown.{source_shown, given_shown};
ghost use Rattle.yr_commands.specs.Program.{all_setting};

use itoa::Buffer;
use std::alloc::{AllocError, Global};
use yr_base::{Sink, Store};
use yr_checks::CheckedRules;
use yr_front::checked_rules;
use yr_outcome::{Answer, join, show};
use yr_words::{Given, Source};

// `rules N, strings M`
fn line(alloc: Global, rules: &CheckedRules) -> Result<Vec<u8>, AllocError>
    ensures { IfOk result (λ text. text.items ≡ check_line (rules_of rules.now)) }
{
    let mut count = Buffer::new();
    let mut strings = Buffer::new();
    join(
        alloc,
        &[
            b"rules ",
            count.format(rules.rules().len()).as_bytes(),
            b", strings ",
            strings.format(rules.strings().len()).as_bytes(),
            b"\n",
        ],
    )
}

fn show_counts<'a, O: Sink>(alloc: Global, rules: &CheckedRules, out: &mut O) -> Answer<'a>
    ensures later { O.faults out.old ≤ O.faults out.new }
    ensures cause { (before after : ℕ) → HasCause None result before after (O.faults out.old) (O.faults out.new) }
    ensures fits { (setting : Setting) (files : Files) (told : Option Files) → told ≡ Some files → (trace : Option (List Entry))
        → FitsAnswer setting (λ found. outcome.shown files (check_line (rules_of rules.now)) outcome.Free) result
        (seen told trace (O.written out.old)) (seen told trace (O.written out.new)) }
{
    match line(alloc, rules) {
        Ok(text) => show(out, &text),
        Err(_) => Answer::NoMemory,
    }
}

/// Checks rule files.
pub fn check<'a, F: Store, O: Sink>(
    alloc: Global,
    sources: &[Source<'_>],
    givens: &[Given<'_>],
    store: &mut F,
    out: &mut O,
) -> Answer<'a>
    requires few { length sources.now ≤ 16 }
    requires spaces { All (λ s. IsShortWord s.space) (map source_shown sources.now) }
    requires externals { AreExternals (map front.external_of (map given_shown givens.now)) }
    ensures later { F.faults store.old ≤ F.faults store.new }
    ensures out_later { O.faults out.old ≤ O.faults out.new }
    ensures cause { HasCause None result (F.faults store.old) (F.faults store.new) (O.faults out.old) (O.faults out.new) }
    ensures fits { (reading : Reading) → IsReading reading → (files : Files) → F.files store.old ≡ Some files
        → FitsAnswer all_setting (λ found. outcome.run all_setting reading found files (Check (map source_shown sources.now) (map given_shown givens.now))) result
        (seen (F.files store.old) (F.trace store.old) (O.written out.old)) (seen (F.files store.new) (F.trace store.new) (O.written out.new)) }
{
    match checked_rules(alloc, sources, givens, store) {
        Ok(rules) => show_counts(alloc, &rules, out),
        Err(answer) => answer,
    }
}
