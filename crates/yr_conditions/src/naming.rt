//! Strings and sets by their numbers.

ghost use Rattle.std.specs.Prelude.{◌≡◌, ◌+◌, ◌*◌, ◌≤◌, ◌^◌, IfOk, length, map, false};
ghost use Rattle.yr_conditions.specs.Room.{IsRoomy};
ghost use Rattle.std.specs.List.{range_with_len};
ghost use Rattle.yr_rules.specs.NodeTree.{set_of};
ghost use Rattle.yr_rules.specs.Weight.{set_weight};
ghost use Rattle.yr_syntax.specs.Condition.{item_of, set_of as set_tree};
ghost use Rattle.yr_conditions.specs.Around.{around_of};
ghost use Rattle.yr_conditions.specs.UseViews.{earlier_rules};
ghost use Rattle.yr_conditions.specs.Nodes as spec;
ghost use Rattle.yr_conditions.specs.Shapes.{kept_ref, kept_set};
ghost use Rattle.yr_name_tables.specs.Names as names;

use crate::{Around, Scopes};
use std::alloc::Global;
use yr_base::NoMemory;
use yr_name_tables::Numbered;
use yr_rules::{Members, StringRef};
use yr_syntax::{SetItem, SetRef};

/// The numbers, from one on, of the names that the items mean.
fn numbers_meant(
    alloc: Global,
    items: &[SetItem],
    first: u32,
    all: &Numbered<'_>,
) -> Result<Vec<u32>, NoMemory>
    requires { first + length all.now ≤ 2 ^ 32 }
    ensures { IfOk result (λ met. met.items ≡ names.numbers_meant (map item_of items.now) first all.now) }
{
    let mut met = Vec::new(alloc);
    let places = all.numbers_meant(alloc, items)?;
    for place in &places {
        met.push(first + *place as u32)?;
    }
    Ok(met)
}

/// The numbers, from one on, of so many names.
fn numbers_from(alloc: Global, first: u32, count: usize) -> Result<Vec<u32>, NoMemory>
    requires { first + count ≤ 2 ^ 32 }
    ensures { IfOk result (λ all. all.items ≡ range_with_len first count) }
{
    let mut all = Vec::new(alloc);
    for place in 0..count {
        all.push(first + place as u32)?;
    }
    Ok(all)
}

/// The numbers of the earlier rules that the items mean.
fn rules_meant(
    alloc: Global,
    items: &[SetItem],
    rules: &Numbered<'_>,
    numbers: &[u32],
) -> Result<Vec<u32>, NoMemory>
    requires { length numbers.now ≡ length rules.now }
    ensures { IfOk result (λ met. met.items ≡ spec.rules_meant (map item_of items.now) (earlier_rules rules.now numbers.now)) }
{
    let mut met = Vec::new(alloc);
    let places = rules.numbers_meant(alloc, items)?;
    for place in &places {
        met.push(numbers[*place])?;
    }
    Ok(met)
}

/// The members of a set, each once, in the order of declaration.
fn members(alloc: Global, around: &Around<'_, '_>, set: &SetRef) -> Result<Members, NoMemory>
    requires { around.now.first_string + length around.now.strings.now ≤ 2 ^ 32 }
    ensures { IfOk result (λ m. set_of m ≡ spec.set_node (around_of around.now) (set_tree set.now)) }
{
    match set {
        SetRef::Them => {
            let all = numbers_from(alloc, around.first_string, around.strings.len())?;
            Ok(Members::Strings(all))
        }
        SetRef::Strings(items) => {
            let met = numbers_meant(alloc, items, around.first_string, around.strings)?;
            Ok(Members::Strings(met))
        }
        SetRef::Rules(items) => {
            let met = rules_meant(alloc, items, around.rules, around.rule_numbers)?;
            Ok(Members::Rules(met))
        }
    }
}

/// How many members a set has. Those of one set at a time are found to be counted, and none is kept.
pub fn set_size(alloc: Global, around: &Around<'_, '_>, set: &SetRef) -> Result<usize, NoMemory>
    ensures { IfOk result (λ n. 16 * n ≡ set_weight (spec.set_node (around_of around.now) (set_tree set.now))) }
{
    match set {
        SetRef::Them => Ok(around.strings.len()),
        SetRef::Strings(items) => Ok(around.strings.numbers_meant(alloc, items)?.len()),
        SetRef::Rules(items) => Ok(around.rules.numbers_meant(alloc, items)?.len()),
    }
}

/// An empty set of the same sort.
fn no_members(alloc: Global, set: &SetRef) -> Members
    ensures { (around : _) → set_of result ≡ kept_set false (spec.set_node around (set_tree set.now)) }
{
    match set {
        SetRef::Them | SetRef::Strings(_) => Members::Strings(Vec::new(alloc)),
        SetRef::Rules(_) => Members::Rules(Vec::new(alloc)),
    }
}

/// The members of a set, where numbers are wanted.
#[inline(never)]
pub fn kept_members(
    alloc: Global,
    exact: bool,
    around: &Around<'_, '_>,
    set: &SetRef,
) -> Result<Members, NoMemory>
    requires { IsRoomy exact around.now }
    ensures { IfOk result (λ m. set_of m ≡ kept_set exact (spec.set_node (around_of around.now) (set_tree set.now))) }
{
    if exact {
        members(alloc, around, set)
    } else {
        Ok(no_members(alloc, set))
    }
}

/// A string by its name, or the one at which the innermost loop over members stands.
#[inline(never)]
pub fn string_ref(
    exact: bool,
    around: &Around<'_, '_>,
    name: &[u8],
    scopes: &Scopes<'_>,
) -> Option<StringRef>
    requires room { IsRoomy exact around.now }
    requires low { length scopes.now ≤ 2 ^ 32 }
    ensures { result ≡ kept_ref exact (spec.string_ref (around_of around.now) name.now scopes.now) }
{
    if name.is_empty() {
        return match scopes.current() {
            Some(number) => Some(StringRef::Current(number as u32)),
            None => None,
        };
    }
    let Some(place) = around.strings.number(name) else {
        return None;
    };
    if exact {
        Some(StringRef::Known(around.first_string + place as u32))
    } else {
        Some(StringRef::Known(0))
    }
}
