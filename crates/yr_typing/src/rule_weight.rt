//! The weights of rules, strings and externals, as far as 64 bits tell.

ghost use Rattle.std.specs.Prelude.{◌≡◌, ◌-◌, ◌^◌, map, min};
ghost use Rattle.yr_pattern.specs.Variants.{variant_of};
ghost use Rattle.yr_rules.specs.Weight as spec;
ghost use Rattle.yr_rules.specs.Rules.{external_of, string_of};
ghost use Rattle.yr_syntax.specs.Declaration.{bytes_of, meta_of};

use crate::node_weight::{condition_weight, pattern_weight};
use yr_pattern::{Variant, VariantBody};
use yr_rules::{CheckedRule, CheckedString, External, ExternalValue, Meta};
use yr_syntax::MetaValue;

fn external_weight(external: &External) -> u64
    ensures { result ≡ min (spec.external_weight (external_of external.now)) (2 ^ 64 - 1) }
{
    let name = (external.name.len() as u64).saturating_add(32);
    match &external.value {
        ExternalValue::Text(text) => name.saturating_add(text.len() as u64),
        ExternalValue::Number(_) => name,
        ExternalValue::Flag(_) => name,
    }
}

/// The weight of all externals.
pub fn externals_weight(externals: &[External]) -> u64
    ensures { result ≡ min (spec.total spec.external_weight (map external_of externals.now)) (2 ^ 64 - 1) }
{
    let mut total: u64 = 0;
    for i in (0..externals.len()).rev() {
        total = total.saturating_add(external_weight(&externals[i]));
    }
    total
}

fn variant_weight(variant: &Variant) -> u64
    ensures { result ≡ min (spec.variant_weight (variant_of variant.now)) (2 ^ 64 - 1) }
{
    match &variant.body {
        VariantBody::Literal { bytes, .. } => (bytes.len() as u64).saturating_add(64),
        VariantBody::Shape(pattern) => pattern_weight(pattern),
    }
}

fn variants_weight(variants: &[Variant]) -> u64
    ensures { result ≡ min (spec.total spec.variant_weight (map variant_of variants.now)) (2 ^ 64 - 1) }
{
    let mut total: u64 = 0;
    for i in (0..variants.len()).rev() {
        total = total.saturating_add(variant_weight(&variants[i]));
    }
    total
}

/// The weight of a string with its variants.
pub fn string_weight(string: &CheckedString) -> u64
    ensures { result ≡ min (spec.string_weight (string_of string.now)) (2 ^ 64 - 1) }
{
    (string.name.len() as u64)
        .saturating_add(variants_weight(&string.variants))
        .saturating_add(32)
}

/// The weight of strings with their variants.
pub fn strings_weight(strings: &[CheckedString]) -> u64
    ensures { result ≡ min (spec.total spec.string_weight (map string_of strings.now)) (2 ^ 64 - 1) }
{
    let mut total: u64 = 0;
    for i in (0..strings.len()).rev() {
        total = total.saturating_add(string_weight(&strings[i]));
    }
    total
}

/// The weight of tags.
pub fn tags_weight(tags: &[Vec<u8>]) -> u64
    ensures { result ≡ min (spec.total spec.tag_weight (map bytes_of tags.now)) (2 ^ 64 - 1) }
{
    let mut total: u64 = 0;
    for i in (0..tags.len()).rev() {
        total = total.saturating_add((tags[i].len() as u64).saturating_add(16));
    }
    total
}

fn entry_weight(entry: &Meta) -> u64
    ensures { result ≡ min (spec.meta_weight (meta_of entry.now)) (2 ^ 64 - 1) }
{
    let key = (entry.key.len() as u64).saturating_add(32);
    match &entry.value {
        MetaValue::Text(text) => key.saturating_add(text.len() as u64),
        MetaValue::Number(_) => key,
        MetaValue::Flag(_) => key,
    }
}

/// The weight of a rule's entries of meta.
pub fn meta_weight(meta: &[Meta]) -> u64
    ensures { result ≡ min (spec.total spec.meta_weight (map meta_of meta.now)) (2 ^ 64 - 1) }
{
    let mut total: u64 = 0;
    for i in (0..meta.len()).rev() {
        total = total.saturating_add(entry_weight(&meta[i]));
    }
    total
}
