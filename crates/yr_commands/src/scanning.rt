//! `scan`: the report of rules on a target, by an image of their own.

ghost use Rattle.std.specs.Prelude.{◌≡◌, ◌≤◌, ℕ, List, Option, None, Some, All, length, map};
ghost use Rattle.yr_base.specs.Store.{Files};
ghost use Rattle.yr_preserves.specs.RuleIds.{HaveIds};
ghost use Rattle.yr_outcome.specs.Fits.{seen};
ghost use Rattle.yr_outcome.specs.Front.{Reading, IsReading};
ghost use Rattle.yr_outcome.specs.Front as front;
ghost use Rattle.yr_outcome.specs.Outcome as outcome;
ghost use Rattle.yr_outcome.specs.Steps.{FitsAnswer, HasCause};
ghost use Rattle.yr_rules.specs.Rules.{rules_of};
ghost use Rattle.yr_rules.specs.Wellformed.{IsShortWord};
ghost use Rattle.yr_checks.specs.Resolving.{AreExternals};
ghost use Rattle.yr_words.specs.Commands.{Scan};
ghost use Rattle.yr_words.specs.Shown.{flags_shown, source_shown, given_shown};
ghost use Rattle.yr_commands.specs.Program.{all_setting};

use crate::rules_image::image_of;
use std::alloc::Global;
use yr_base::{Sink, Store};
use yr_checks::CheckedRules;
use yr_front::checked_rules;
use yr_outcome::Answer;
use yr_scan::scan_compiled;
use yr_words::{Flags, Given, Source};

// The report of checked rules.
fn scan_rules<'a, F: Store, O: Sink>(
    alloc: Global,
    flags: Flags,
    rules: &CheckedRules,
    target: &'a str,
    store: &mut F,
    out: &mut O,
) -> Answer<'a>
    requires { HaveIds (rules_of rules.now) }
    ensures later { F.faults store.old ≤ F.faults store.new }
    ensures out_later { O.faults out.old ≤ O.faults out.new }
    ensures cause { HasCause None result (F.faults store.old) (F.faults store.new) (O.faults out.old) (O.faults out.new) }
    ensures fits { (reading : Reading) (files : Files) → F.files store.old ≡ Some files
        → FitsAnswer all_setting (λ found. outcome.scanned all_setting reading found files (flags_shown flags) target.now (rules_of rules.now)) result
        (seen (F.files store.old) (F.trace store.old) (O.written out.old)) (seen (F.files store.new) (F.trace store.new) (O.written out.new)) }
{
    match image_of(alloc, rules) {
        Ok(bytes) => scan_compiled(alloc, &bytes, flags, target, store, out),
        Err(_) => Answer::NoMemory,
    }
}

/// Scans a target by rule files.
pub fn scan<'a, F: Store, O: Sink>(
    alloc: Global,
    flags: Flags,
    sources: &[Source<'_>],
    target: &'a str,
    givens: &[Given<'_>],
    store: &mut F,
    out: &mut O,
) -> Answer<'a>
    requires few { length sources.now ≤ 16 }
    requires spaces { All (λ s. IsShortWord s.space) (map source_shown sources.now) }
    requires externals { AreExternals (map front.external_of (map given_shown givens.now)) }
    ensures later { F.faults store.old ≤ F.faults store.new }
    ensures out_later { O.faults out.old ≤ O.faults out.new }
    ensures cause { HasCause None result (F.faults store.old) (F.faults store.new) (O.faults out.old) (O.faults out.new) }
    ensures fits { (reading : Reading) → IsReading reading → (files : Files) → F.files store.old ≡ Some files
        → FitsAnswer all_setting (λ found. outcome.run all_setting reading found files
        (Scan (flags_shown flags) (map source_shown sources.now) target.now (map given_shown givens.now))) result
        (seen (F.files store.old) (F.trace store.old) (O.written out.old)) (seen (F.files store.new) (F.trace store.new) (O.written out.new)) }
{
    match checked_rules(alloc, sources, givens, store) {
        Ok(rules) => scan_rules(alloc, flags, &rules, target, store, out),
        Err(answer) => answer,
    }
}
