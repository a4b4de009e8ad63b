//! What a condition uses that is not there, and loops that are too deep or too long.

ghost use Rattle.std.specs.Prelude.{◌≡◌, IfOk, map};
ghost use Rattle.std.specs.List.{list_any};
ghost use Rattle.std.specs.Option.{option_map};
ghost use Rattle.yr_name_tables.specs.Names as names;
ghost use Rattle.yr_conditions.specs.UseViews.{use_of};
ghost use Rattle.yr_checks.specs.Checks as spec;
ghost use Rattle.yr_checking.specs.Findings.{named_of};

use crate::finding::Named;
use crate::known::Known;
use crate::tables::{rule_fronts, string_fronts};
use std::alloc::Global;
use yr_base::NoMemory;
use yr_conditions::Use;
use yr_name_tables::Numbered;

/// The token of a name that no string has, or of a sign that means none.
fn unknown_string<'a>(strings: &Known<'_, '_, '_>, used: &Use<'a>) -> Option<Named<'a>>
    ensures { option_map named_of result ≡ spec.unknown_string strings.now.names.now (use_of used.now) }
{
    match used {
        Use::String(sign, name) => {
            if strings.has(name) {
                None
            } else {
                Some(Named::Token(*sign, name, false))
            }
        }
        Use::Nameless(sign) => Some(Named::Token(*sign, &[], false)),
        Use::Member(name, wild) => {
            if strings.means_some(name, *wild) {
                None
            } else {
                Some(Named::Token(b'$', name, *wild))
            }
        }
        _ => None,
    }
}

/// The first such token.
fn first_unknown_token<'a>(strings: &Known<'_, '_, '_>, uses: &[Use<'a>]) -> Option<Named<'a>>
    ensures { option_map named_of result ≡ names.first (spec.unknown_string strings.now.names.now) (map use_of uses.now) }
{
    for used in uses {
        let unknown = unknown_string(strings, used);
        if unknown.is_some() {
            return unknown;
        }
    }
    None
}

/// The first token of a name that no string has, or of a sign that means none. An item with a `*` is looked up where the
/// names are in order, and else compared with one after another; but where such items are many, the names are walked once
/// for all of them.
pub fn first_unknown_string<'a>(
    alloc: Global,
    strings: &Numbered<'_>,
    uses: &[Use<'a>],
) -> Result<Option<Named<'a>>, NoMemory>
    ensures { IfOk result (λ o. option_map named_of o ≡ names.first (spec.unknown_string strings.now) (map use_of uses.now)) }
{
    let fronts = string_fronts(alloc, uses)?;
    let known = Known::new(alloc, strings, fronts)?;
    Ok(first_unknown_token(&known, uses))
}

/// A word without a meaning, a field that its module lacks, an item that no earlier rule of the namespace meets.
fn unknown_name<'a>(rules: &Known<'_, '_, '_>, used: &Use<'a>) -> Option<Named<'a>>
    ensures { option_map named_of result ≡ spec.unknown_name rules.now.names.now (use_of used.now) }
{
    match used {
        Use::Unknown(word) => Some(Named::Word(word)),
        Use::Earlier(name, wild) => {
            if rules.means_some(name, *wild) {
                None
            } else {
                Some(Named::Word(name))
            }
        }
        _ => None,
    }
}

/// The first such word.
fn first_unknown_word<'a>(rules: &Known<'_, '_, '_>, uses: &[Use<'a>]) -> Option<Named<'a>>
    ensures { option_map named_of result ≡ names.first (spec.unknown_name rules.now.names.now) (map use_of uses.now) }
{
    for used in uses {
        let unknown = unknown_name(rules, used);
        if unknown.is_some() {
            return unknown;
        }
    }
    None
}

/// The first word without a meaning, or item that no earlier rule of the namespace meets. Items with a `*` are looked for as
/// those of strings are.
pub fn first_unknown_name<'a>(
    alloc: Global,
    rules: &Numbered<'_>,
    uses: &[Use<'a>],
) -> Result<Option<Named<'a>>, NoMemory>
    ensures { IfOk result (λ o. option_map named_of o ≡ names.first (spec.unknown_name rules.now) (map use_of uses.now)) }
{
    let fronts = rule_fronts(alloc, uses)?;
    let known = Known::new(alloc, rules, fronts)?;
    Ok(first_unknown_word(&known, uses))
}

fn is_deep(used: &Use<'_>) -> bool
    ensures { result ≡ spec.is_deep (use_of used.now) }
{
    match used {
        Use::Loop(round) => *round >= 4,
        _ => false,
    }
}

/// Whether a loop stands inside too many others.
pub fn some_deep(uses: &[Use<'_>]) -> bool
    ensures { result ≡ list_any spec.is_deep (map use_of uses.now) }
{
    for used in uses {
        if is_deep(used) {
            return true;
        }
    }
    false
}

fn is_long(used: &Use<'_>) -> bool
    ensures { result ≡ spec.is_long (use_of used.now) }
{
    match used {
        Use::Listed(items) => *items > 128,
        _ => false,
    }
}

/// Whether a list has too many items.
pub fn some_long(uses: &[Use<'_>]) -> bool
    ensures { result ≡ list_any spec.is_long (map use_of uses.now) }
{
    for used in uses {
        if is_long(used) {
            return true;
        }
    }
    false
}
