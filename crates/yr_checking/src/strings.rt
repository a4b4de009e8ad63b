//! The strings of a rule: what is found on them, and the checked strings.

ghost use Rattle.std.specs.Prelude.{◌≡◌, ◌+◌, ◌-◌, ◌^◌, IfOk, None, length, map, min, nat_lt};
ghost use Rattle.std.specs.List.{list_any};
ghost use Rattle.std.specs.Option.{option_map};
ghost use Rattle.yr_name_tables.specs.Names.{first, with_sign};
ghost use Rattle.yr_conditions.specs.Fixed.{the_readers};
ghost use Rattle.yr_conditions.specs.Readers.{modifiers_of};
ghost use Rattle.yr_pattern.specs.Variants.{variant_of, variant_size};
ghost use Rattle.yr_rules.specs.Rules.{string_of as checked_of};
ghost use Rattle.yr_rules.specs.Weight.{string_weight as weight_of_string, total};
ghost use Rattle.yr_syntax.specs.Declaration.{Text, body_of, string_of};
ghost use Rattle.yr_syntax.specs.Forms.{Each};
ghost use Rattle.yr_checks.specs.Checked.{checked_string};
ghost use Rattle.yr_checks.specs.Given.{name_if, naming};
ghost use Rattle.yr_checking.specs.Findings.{finding_of, IsSoundString};
ghost use Rattle.yr_checking.specs.TextSizes as sizes;
ghost use Rattle.yr_checks.specs.Patterns as spec;

use crate::finding::{Finding, found, string_name};
use crate::read_string::{read_string, string_modifiers};
use crate::text_sizes::text_tally;
use std::alloc::Global;
use yr_base::NoMemory;
use yr_checks::Code;
use yr_pattern::Variant;
use yr_rules::CheckedString;
use yr_syntax::{StringBody, StringDecl};
use yr_text::Modifiers;
use yr_typing::string_weight;

/// A string, and what is found on its pattern.
#[derive(Drop)]
pub struct ReadString<'a> {
    pub bad_hex: Option<Finding<'a>>,
    pub bad_regex: Option<Finding<'a>>,
    pub large: Option<Finding<'a>>,
    pub string: CheckedString,
}

/// The first findings on the patterns of strings, and what the strings weigh.
#[derive(Clone, Copy)]
pub struct StringFindings<'a> {
    pub bad_hex: Option<Finding<'a>>,
    pub bad_regex: Option<Finding<'a>>,
    pub large: Option<Finding<'a>>,
    pub weight: u64,
}

/// Whether one of the variants is too large.
fn some_large(variants: &[Variant]) -> bool
    ensures { result ≡ list_any (λ v. spec.is_large (variant_size v)) (map variant_of variants.now) }
{
    for variant in variants {
        if variant.size() > 65535 {
            return true;
        }
    }
    false
}

/// The finding of a string that is too large, where the test holds.
fn large_where(test: bool, name: &[u8]) -> Option<Finding<'_>>
    ensures { option_map finding_of result ≡ naming Code.PatternTooLarge (name_if test (with_sign name.now)) }
{
    if test {
        Some(found(Code::PatternTooLarge, string_name(name)))
    } else {
        None
    }
}

fn large_string<'a>(name: &'a [u8], variants: &[Variant]) -> Option<Finding<'a>>
    ensures { option_map finding_of result ≡ naming Code.PatternTooLarge (name_if (list_any (λ v. spec.is_large (variant_size v)) (map variant_of variants.now)) (with_sign name.now)) }
{
    large_where(some_large(variants), name)
}

/// What the modifiers of a string say that has passed the check on them.
fn sound_modifiers(string: &StringDecl) -> Modifiers
    requires { IsSoundString (string_of string.now) }
    ensures { result ≡ modifiers_of (string_of string.now) }
{
    let Some(modifiers) = string_modifiers(string) else {
        unreachable!();
    };
    modifiers
}

/// A string of a rule as it is read.
fn read_checked<'a>(
    alloc: Global,
    string: &'a StringDecl,
    rule: u32,
) -> Result<ReadString<'a>, NoMemory>
    requires { IsSoundString (string_of string.now) }
    ensures bad_hex { IfOk result (λ r. option_map finding_of r.bad_hex ≡ spec.bad_hex the_readers (string_of string.now)) }
    ensures bad_regex { IfOk result (λ r. option_map finding_of r.bad_regex ≡ spec.bad_regex the_readers (string_of string.now)) }
    ensures large { IfOk result (λ r. option_map finding_of r.large ≡ spec.large_string the_readers (string_of string.now)) }
    ensures string { IfOk result (λ r. checked_of r.string ≡ checked_string the_readers rule (string_of string.now)) }
{
    let modifiers = sound_modifiers(string);
    let read = read_string(alloc, string, &modifiers)?;
    let name = Vec::from_slice(alloc, &string.name)?;
    Ok(ReadString {
        bad_hex: read.bad_hex,
        bad_regex: read.bad_regex,
        large: large_string(&string.name, &read.variants),
        string: CheckedString {
            name,
            rule,
            hidden: modifiers.hidden,
            greedy: read.greedy,
            variants: read.variants,
        },
    })
}

fn capped(weight: u128) -> u64
    ensures { result ≡ min weight (2 ^ 64 - 1) }
{
    if weight > 18_446_744_073_709_551_615 {
        18_446_744_073_709_551_615
    } else {
        weight as u64
    }
}

/// What is found on a text of so many bytes, and what it weighs. None of its variants is made.
fn sized_text<'a>(name: &'a [u8], size: usize, modifiers: &Modifiers) -> StringFindings<'a>
    ensures bad_hex { option_map finding_of result.bad_hex ≡ None }
    ensures bad_regex { option_map finding_of result.bad_regex ≡ None }
    ensures large { option_map finding_of result.large
        ≡ naming Code.PatternTooLarge (name_if (nat_lt 0 (sizes.text_sum sizes.large_count modifiers.now size)) (with_sign name.now)) }
    ensures weight { result.weight ≡ min (32 + length name.now + sizes.text_sum sizes.literal_weight modifiers.now size) (2 ^ 64 - 1) }
{
    let tally = text_tally(modifiers, size);
    let named = 32 + name.len() as u128;
    StringFindings {
        bad_hex: None,
        bad_regex: None,
        large: large_where(tally.large, name),
        weight: capped(tally.weight.saturating_add(named)),
    }
}

/// What is found on a text string, and what it weighs.
#[tactic(auto, using(crate::proofs::StringLemmas::text_hex, crate::proofs::StringLemmas::text_regex, crate::proofs::StringLemmas::text_large, crate::proofs::StringLemmas::text_weight))]
fn text_findings<'a>(
    string: &'a StringDecl,
    text: &[u8],
    modifiers: &Modifiers,
) -> StringFindings<'a>
    requires text { body_of string.now.body ≡ Text text.now }
    requires modifiers { modifiers.now ≡ modifiers_of (string_of string.now) }
    ensures bad_hex { option_map finding_of result.bad_hex ≡ spec.bad_hex the_readers (string_of string.now) }
    ensures bad_regex { option_map finding_of result.bad_regex ≡ spec.bad_regex the_readers (string_of string.now) }
    ensures large { option_map finding_of result.large ≡ spec.large_string the_readers (string_of string.now) }
    ensures weight { (rule : _) → result.weight ≡ min (weight_of_string (checked_string the_readers rule (string_of string.now))) (2 ^ 64 - 1) }
{
    sized_text(&string.name, text.len(), modifiers)
}

/// What is found on a string, and what it weighs.
fn found_on<'a>(read: &ReadString<'a>) -> StringFindings<'a>
    ensures bad_hex { option_map finding_of result.bad_hex ≡ option_map finding_of read.now.bad_hex }
    ensures bad_regex { option_map finding_of result.bad_regex ≡ option_map finding_of read.now.bad_regex }
    ensures large { option_map finding_of result.large ≡ option_map finding_of read.now.large }
    ensures weight { result.weight ≡ min (weight_of_string (checked_of read.now.string)) (2 ^ 64 - 1) }
{
    StringFindings {
        bad_hex: read.bad_hex,
        bad_regex: read.bad_regex,
        large: read.large,
        weight: string_weight(&read.string),
    }
}

fn one_string<'a>(
    alloc: Global,
    string: &'a StringDecl,
    rule: u32,
) -> Result<StringFindings<'a>, NoMemory>
    requires { IsSoundString (string_of string.now) }
    ensures bad_hex { IfOk result (λ f. option_map finding_of f.bad_hex ≡ spec.bad_hex the_readers (string_of string.now)) }
    ensures bad_regex { IfOk result (λ f. option_map finding_of f.bad_regex ≡ spec.bad_regex the_readers (string_of string.now)) }
    ensures large { IfOk result (λ f. option_map finding_of f.large ≡ spec.large_string the_readers (string_of string.now)) }
    ensures weight { IfOk result (λ f. f.weight ≡ min (weight_of_string (checked_string the_readers rule (string_of string.now))) (2 ^ 64 - 1)) }
{
    match &string.body {
        StringBody::Text(text) => {
            let modifiers = sound_modifiers(string);
            Ok(text_findings(string, text, &modifiers))
        }
        StringBody::Hex(_) | StringBody::Regex(_) => {
            let read = read_checked(alloc, string, rule)?;
            Ok(found_on(&read))
        }
    }
}

/// The first findings on the patterns of strings, and what the strings weigh. No string is kept.
pub fn string_findings<'a>(
    alloc: Global,
    strings: &'a [StringDecl],
    rule: u32,
) -> Result<StringFindings<'a>, NoMemory>
    requires { Each IsSoundString (map string_of strings.now) }
    ensures bad_hex { IfOk result (λ f. option_map finding_of f.bad_hex ≡ first (spec.bad_hex the_readers) (map string_of strings.now)) }
    ensures bad_regex { IfOk result (λ f. option_map finding_of f.bad_regex ≡ first (spec.bad_regex the_readers) (map string_of strings.now)) }
    ensures large { IfOk result (λ f. option_map finding_of f.large ≡ first (spec.large_string the_readers) (map string_of strings.now)) }
    ensures weight { IfOk result (λ f. f.weight ≡ min (total weight_of_string (map (checked_string the_readers rule) (map string_of strings.now))) (2 ^ 64 - 1)) }
{
    let mut bad_hex = None;
    let mut bad_regex = None;
    let mut large = None;
    let mut weight: u64 = 0;
    for i in (0..strings.len()).rev() {
        let one = one_string(alloc, &strings[i], rule)?;
        bad_hex = one.bad_hex.or(bad_hex);
        bad_regex = one.bad_regex.or(bad_regex);
        large = one.large.or(large);
        weight = one.weight.saturating_add(weight);
    }
    Ok(StringFindings {
        bad_hex,
        bad_regex,
        large,
        weight,
    })
}

/// The checked strings of a rule.
pub fn checked_strings(
    alloc: Global,
    strings: &[StringDecl],
    rule: u32,
) -> Result<Vec<CheckedString>, NoMemory>
    requires { Each IsSoundString (map string_of strings.now) }
    ensures { IfOk result (λ all. map checked_of all.items ≡ map (checked_string the_readers rule) (map string_of strings.now)) }
{
    let mut all = Vec::new(alloc);
    for string in strings {
        let read = read_checked(alloc, string, rule)?;
        all.push(read.string)?;
    }
    Ok(all)
}
