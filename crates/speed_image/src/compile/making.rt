//! Checked rules that are made one after another.

ghost use Rattle.std.specs.Prelude.{◌≡◌, ◌≤◌, map, length, All, IfOk, OnOk, IsTrue};
ghost use Rattle.yr_pattern.specs.Variants.{variant_of, variant_size};
ghost use Rattle.yr_rules.specs.Rules.{rule_of, string_of, rules_of};
ghost use Rattle.yr_text.specs.Variants.{IsSound};
ghost use Rattle.yr_preserves.specs.RuleIds.{HaveIds};
ghost use Rattle.speed_image.specs.Made.{plain_rule, plain_string, AreMade};

use crate::compile::texts::{Form, variants_of};
use std::alloc::Global;
use yr_base::NoMemory;
use yr_rules::{CheckedRule, CheckedRules, CheckedString, Node, NodePlace, StringRef, Variant};
use yr_typing::strings_weight;

/// The most that strings may weigh here, so that the rules have room beside them.
const MOST_WEIGHT: u64 = 28_000_000;

const MOST_RULES: usize = 65_535;
/// The greatest size of a variant.
const MOST_SIZE: u64 = 65_535;

fn word(alloc: Global, text: &[u8]) -> Result<Vec<u8>, NoMemory>
    ensures { IfOk result (λ w. w.items ≡ text.now) }
{
    Ok(Vec::from_slice(alloc, text)?)
}

#[tactic(auto, using(crate::proofs::TreeRules::found_anywhere))]
fn rule(alloc: Global, k: u32) -> Result<CheckedRule, NoMemory>
    ensures { IfOk result (λ r. rule_of r ≡ plain_rule k) }
{
    Ok(CheckedRule {
        namespace: word(alloc, b"default")?,
        name: word(alloc, b"made")?,
        global: false,
        hidden: false,
        tags: Vec::new(alloc),
        meta: Vec::new(alloc),
        first_string: k,
        string_count: 1,
        condition: Node::Found {
            string: StringRef::Known(k),
            place: NodePlace::Anywhere,
        },
    })
}

fn string(alloc: Global, k: u32, variants: Vec<Variant>) -> Result<CheckedString, NoMemory>
    ensures { IfOk result (λ s. string_of s ≡ plain_string k (map variant_of variants.items)) }
{
    Ok(CheckedString {
        name: word(alloc, b"a")?,
        rule: k,
        hidden: false,
        greedy: false,
        variants,
    })
}

// Whether no variant is too large for a rule.
fn are_small(variants: &[Variant]) -> bool
    ensures { IsTrue result → All (λ v. variant_size v ≤ 65535) (map variant_of variants.now) }
{
    let mut rest = variants;
    while let [v, more @ ..] = rest {
        if v.size() > MOST_SIZE {
            return false;
        }
        rest = more;
    }
    true
}

// How many rules there are, in four bytes.
fn count_of(rules: &[CheckedRule]) -> Result<u32, NoMemory>
    ensures { IfOk result (λ k. k ≡ length rules.now) }
{
    u32::try_from(rules.len()).map_err(|_| NoMemory)
}

// Puts one more rule, whose string has these variants.
fn put(
    alloc: Global,
    rules: &mut Vec<CheckedRule>,
    strings: &mut Vec<CheckedString>,
    variants: Vec<Variant>,
) -> Result<(), NoMemory>
    requires made { AreMade (map rule_of rules.old.items) (map string_of strings.old.items) }
    requires sound { All IsSound (map variant_of variants.items) }
    ensures { OnOk result (AreMade (map rule_of rules.new.items) (map string_of strings.new.items)) }
{
    if !are_small(&variants) {
        return Err(NoMemory);
    }
    let k = count_of(rules)?;
    let rule = rule(alloc, k)?;
    let string = string(alloc, k, variants)?;
    rules.push(rule)?;
    strings.push(string)?;
    Ok(())
}

// The rules, if they are not too many and their strings do not weigh too much.
fn finish(
    alloc: Global,
    rules: Vec<CheckedRule>,
    strings: Vec<CheckedString>,
) -> Result<CheckedRules, NoMemory>
    requires { AreMade (map rule_of rules.items) (map string_of strings.items) }
    ensures { IfOk result (λ all. HaveIds (rules_of all)) }
{
    if rules.len() > MOST_RULES || strings_weight(&strings) > MOST_WEIGHT {
        return Err(NoMemory);
    }
    Ok(CheckedRules::from_parts(rules, strings, Vec::new(alloc)))
}

/// So many rules of a form.
pub fn make(alloc: Global, form: Form, count: u32) -> Result<CheckedRules, NoMemory>
    ensures { IfOk result (λ all. HaveIds (rules_of all)) }
{
    let mut rules = Vec::new(alloc);
    let mut strings = Vec::new(alloc);
    for k in 0..count {
        let variants = variants_of(alloc, form, k)?;
        put(alloc, &mut rules, &mut strings, variants)?;
    }
    finish(alloc, rules, strings)
}
