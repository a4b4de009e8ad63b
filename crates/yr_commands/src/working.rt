//! `work`: a workload that is made, read as a rule file, and scanned.

ghost use Rattle.std.specs.Prelude.{◌≡◌, ◌≤◌, ◌++◌, ◌∷◌, [], ℕ, List, Option, None, Some, IfOk, codes, length, count_by, sum_by};
ghost use Rattle.yr_answer.specs.Truths.{truths_shown};
ghost use Rattle.yr_base.specs.Sink.{Puts};
ghost use Rattle.yr_base.specs.Store.{Files};
ghost use Rattle.yr_base.specs.Trace.{Entry};
ghost use Rattle.yr_preserves.specs.RuleIds.{HaveIds};
ghost use Rattle.yr_outcome.specs.Answers.{counted, work_text};
ghost use Rattle.yr_outcome.specs.Fits.{seen};
ghost use Rattle.yr_outcome.specs.Front.{Reading, IsReading};
ghost use Rattle.yr_outcome.specs.Outcome as outcome;
ghost use Rattle.yr_outcome.specs.Steps.{FitsAnswer, HasCause};
ghost use Rattle.yr_rules.specs.Rules.{rules_of};
ghost use Rattle.yr_scan.specs.Scanned.{module_values};
ghost use Rattle.yr_words.specs.Commands.{Work};
ghost use Rattle.yr_commands.specs.Program.{all_setting, refusal_or_none};

use crate::rules_image::image_of;
use itoa::Buffer;
use std::alloc::Global;
use yr_answer::Matches;
use yr_base::{MemoryStore, NoMemory, PutAnswer, Sink, Truth, put_all};
use yr_checks::CheckedRules;
use yr_front::checked_rules;
use yr_outcome::Answer;
use yr_scan::scan_own;
use yr_words::Source;
use yr_workload::make;

// How many rules hold.
fn count_yes(truths: &[Truth]) -> u64
    ensures { result ≡ count_by (λ truth. truth) (truths_shown truths.now) }
{
    let mut count = 0;
    for truth in truths {
        if let Truth::Yes = truth {
            count += 1;
        }
    }
    count
}

// How many matches all strings have.
fn count_matches(matches: &Matches, strings: u32) -> u64
    requires { strings ≡ length matches.now.lists }
    ensures { result ≡ sum_by length matches.now.lists }
{
    let mut count = 0;
    for string in 0..strings {
        count += u64::from(matches.count(string));
    }
    count
}

// The four lines, each in puts of its own.
fn put_lines<O: Sink>(
    rules: u64,
    bytes: u64,
    satisfied: u64,
    matches: u64,
    out: &mut O,
) -> PutAnswer
    ensures later { O.faults out.old ≤ O.faults out.new }
    ensures puts { Puts (O.written out.old) (O.written out.new)
        (counted (codes "rules") rules ++ (counted (codes "bytes") bytes
        ++ (counted (codes "satisfied") satisfied ++ counted (codes "matches") matches))) result (O.faults out.old) (O.faults out.new) }
{
    let mut first = Buffer::new();
    let mut second = Buffer::new();
    let mut third = Buffer::new();
    let mut fourth = Buffer::new();
    put_all(
        out,
        &[
            b"rules ",
            first.format(rules).as_bytes(),
            b"\n",
            b"bytes ",
            second.format(bytes).as_bytes(),
            b"\n",
            b"satisfied ",
            third.format(satisfied).as_bytes(),
            b"\n",
            b"matches ",
            fourth.format(matches).as_bytes(),
            b"\n",
        ],
    )
}

// The answer of a command whose whole answer was put.
fn answer_of<'a>(put: PutAnswer) -> Answer<'a>
    ensures cause { (old new : Option (List ℕ)) (text : List ℕ) (before after store_before store_after : ℕ) → Puts old new text put before after
        → HasCause None result store_before store_after before after }
    ensures fits { (files : Files) (told : Option Files) → told ≡ Some files → (trace : Option (List Entry)) (text : List ℕ)
        (old new : Option (List ℕ)) (before after : ℕ) → Puts old new text put before after
        → FitsAnswer all_setting (λ found. outcome.shown files text outcome.Free) result (seen told trace old) (seen told trace new) }
{
    match put {
        PutAnswer::Done => Answer::Done,
        PutAnswer::Failed => Answer::Unwritten(None),
    }
}

// The numbers of a scan of a file by rules.
fn show_numbers<'a, O: Sink>(
    alloc: Global,
    rules: &CheckedRules,
    file: &[u8],
    out: &mut O,
) -> Answer<'a>
    requires ids { HaveIds (rules_of rules.now) }
    requires small { length file.now ≤ 268435456 }
    ensures later { O.faults out.old ≤ O.faults out.new }
    ensures cause { (before after : ℕ) → HasCause None result before after (O.faults out.old) (O.faults out.new) }
    ensures fits { (files : Files) (told : Option Files) → told ≡ Some files → (trace : Option (List Entry))
        → FitsAnswer all_setting (λ found. outcome.shown files (work_text module_values (rules_of rules.now) file.now) outcome.Free) result
        (seen told trace (O.written out.old)) (seen told trace (O.written out.new)) }
{
    let Ok(bytes) = image_of(alloc, rules) else {
        return Answer::NoMemory;
    };
    let Ok(scan) = scan_own(alloc, &bytes, file) else {
        return Answer::NoMemory;
    };
    let satisfied = count_yes(&scan.truths);
    let matches = count_matches(&scan.matches, rules.strings().len() as u32);
    let put = put_lines(
        rules.rules().len() as u64,
        file.len() as u64,
        satisfied,
        matches,
        out,
    );
    answer_of(put)
}

// The store of a workload: its rules as the one file `work`.
fn store_of(alloc: Global, rules: &[u8]) -> Result<MemoryStore, NoMemory>
    ensures { IfOk result (λ store. store ≡ record { files = (codes "work", rules.now) ∷ []; trace = []; failing = []; faults = 0 }) }
{
    let mut store = MemoryStore::new(alloc)?;
    store.add(alloc, "work", rules)?;
    Ok(store)
}

// The refusal that a workload's rules get.
fn refusal_in<'a>(answer: Answer<'_>) -> Answer<'a>
    ensures { result ≡ refusal_or_none answer.entry }
{
    match answer {
        Answer::Refused { status, text } => Answer::Refused { status, text },
        // The one file is there, and includes none.
        _ => Answer::NoMemory,
    }
}

/// Makes a workload, and shows the numbers of its scan.
pub fn work<'a, O: Sink>(alloc: Global, number: u64, size: u32, out: &mut O) -> Answer<'a>
    requires { size ≤ 16777216 }
    ensures later { O.faults out.old ≤ O.faults out.new }
    ensures cause { (before after : ℕ) → HasCause None result before after (O.faults out.old) (O.faults out.new) }
    ensures fits { (reading : Reading) → IsReading reading → (files : Files) (told : Option Files) → told ≡ Some files → (trace : Option (List Entry))
        → FitsAnswer all_setting (λ found. outcome.run all_setting reading found files (Work number size)) result
        (seen told trace (O.written out.old)) (seen told trace (O.written out.new)) }
{
    let Ok(made) = make(alloc, number, size) else {
        return Answer::NoMemory;
    };
    let Ok(mut store) = store_of(alloc, &made.rules) else {
        return Answer::NoMemory;
    };
    let sources = [Source {
        space: "default",
        file: "work",
    }];
    match checked_rules(alloc, &sources, &[], &mut store) {
        Ok(rules) => show_numbers(alloc, &rules, &made.file, out),
        Err(answer) => refusal_in(answer),
    }
}
