//! How many members of a set hold.

ghost use Rattle.std.specs.Prelude.{◌≡◌, ◌+◌, ◌<◌, ◌≤◌, ℕ, true, length, map, Some, slice_get};
ghost use Rattle.std.specs.List.{list_any};
ghost use Rattle.yr_rows.specs.Nodes.{outputs_of};
ghost use Rattle.yr_answer.specs.Lookups.{list_at};
ghost use Rattle.yr_answer.specs.Truths.{truths_shown};
ghost use Rattle.yr_answer.specs.Turns.{found_in};
ghost use Rattle.yr_vm.specs.Members.{members_in, are_there};
ghost use Rattle.yr_vm.specs.Strings.{asked_shown};
ghost use Rattle.yr_vm.specs.Earlier.{truth_in};

use crate::asked::{Asked, has_asked};
use yr_answer::Matches;
use yr_base::Truth;
use yr_rows::output_at;

// Member k of a set whose list rows are there.
#[inline]
fn member(lists: &[u8], first: u32, rows: u64, k: u64) -> u32
    requires there { 0 < rows → first + rows ≤ length (outputs_of lists.now) }
    requires inside { k < rows }
    ensures { slice_get (members_in (outputs_of lists.now) first rows) k ≡ Some result }
{
    output_at(lists, first as usize + k as usize)
}

/// Whether an earlier rule holds.
#[inline]
pub fn rule_holds(truths: &[Truth], rule: u32) -> bool
    requires { rule < length truths.now }
    ensures { result ≡ truth_in (truths_shown truths.now) rule }
{
    match truths[rule as usize] {
        Truth::No => false,
        Truth::Yes => true,
    }
}

/// How many of the strings of a set have a match that is asked for.
pub fn strings_found(lists: &[u8], first: u32, rows: u64, matches: &Matches, asked: Asked) -> u64
    requires { are_there (outputs_of lists.now) first rows (length matches.now.lists) ≡ true }
    ensures { result ≡ found_in (map (λ (k : ℕ). list_any (asked_shown asked) (list_at matches.now.lists k))
        (members_in (outputs_of lists.now) first rows)) }
{
    let mut found = 0;
    for k in 0..rows {
        let string = member(lists, first, rows, k);
        if has_asked(matches, string, asked) {
            found += 1;
        }
    }
    found
}

/// How many of the rules of a set hold, which are all among these.
pub fn rules_found(lists: &[u8], first: u32, rows: u64, truths: &[Truth]) -> u64
    requires { are_there (outputs_of lists.now) first rows (length truths.now) ≡ true }
    ensures { result ≡ found_in (map (truth_in (truths_shown truths.now)) (members_in (outputs_of lists.now) first rows)) }
{
    let mut found = 0;
    for k in 0..rows {
        let rule = member(lists, first, rows, k);
        if rule_holds(truths, rule) {
            found += 1;
        }
    }
    found
}
