//! The checks on a rule, and the checked rule where none fails.

ghost use Rattle.std.specs.Prelude.{◌≡◌, ◌≤◌, ◌+◌, ◌-◌, ◌^◌, [], IfOk, IfErr, MatchOption, OnOk, Some, None, length, map, min};
ghost use Rattle.std.specs.Option.{option_map, option_and_then};
ghost use Rattle.yr_conditions.specs.Fixed.{the_readers};
ghost use Rattle.yr_rules.specs.NodeTree.{tree_of as node_tree};
ghost use Rattle.yr_name_tables.specs.Names.{first};
ghost use Rattle.yr_rules.specs.Kinds.{kind_of};
ghost use Rattle.yr_rules.specs.Weight.{total, weight_of, rule_weight as weight_of_rule, string_weight as weight_of_string};
ghost use Rattle.yr_rules.specs.Rules.{external_of, rule_of as checked_rule_of};
ghost use Rattle.yr_syntax.specs.Forms.{Each, HasForms, RuleHasForms};
ghost use Rattle.yr_checking.specs.AtHand.{IsAtHand, given_at, placed_at};
ghost use Rattle.yr_checks.specs.Checked as checked;
ghost use Rattle.yr_checking.specs.Findings.{finding_of, IsSoundString};
ghost use Rattle.yr_checks.specs.Given.{around, finding, rule_uses, rule_node, string_names as names_of};
ghost use Rattle.yr_checking.specs.Judged.{IsBefore, IsMade, IsTooHeavy, Explains, rule_fault, weight_fault, rest_fault};
ghost use Rattle.yr_checks.specs.Patterns as patterns;
ghost use Rattle.yr_checks.specs.Refusals.{at_rule, checks};
ghost use Rattle.yr_checks.specs.Sources.{AtRule, first_string_of, number_of, up_to};
ghost use Rattle.yr_checking.specs.Stages.{fault_at, late_fault};
ghost use Rattle.yr_conditions.specs.Around.{around_of};

use crate::at_hand::AtHand;
use crate::late::Examined;
use crate::light::{WEIGHT_LIMIT, first_node, light_node, when_made};
use crate::refusing::refuse_rule;
use crate::sorting::{has_rule_items, sort_strings, sorted_rules};
use crate::stages::{CHECKS, Fault, first_early, first_late};
use crate::{
    Named, StringFindings, checked_strings, copy_bytes, copy_meta, copy_tags,
    first_expression_findings, first_unknown_name, first_unknown_string, first_unused, found,
    string_findings, string_names, wildcards,
};
use std::alloc::Global;
use yr_base::NoMemory;
use yr_checks::{Check, Code, ResolveFault};
use yr_conditions::{Around, Uses, condition_uses};
use yr_name_tables::{Name, Numbered};
use yr_rules::{CheckedRule, CheckedString, External, Kind, Node};
use yr_typing::{condition_kind, condition_weight, meta_weight, tags_weight};

/// How many rules and strings stand before a rule, and what they weigh with the externals, as far as 64 bits tell.
#[derive(Clone, Copy, Debug, PartialEq, Eq)]
pub struct Before {
    pub rules: usize,
    pub strings: usize,
    pub weight: u64,
}

/// A rule that passes, and what is kept of it.
#[derive(Drop)]
pub struct Made<'a> {
    pub rule: CheckedRule,
    pub strings: Vec<CheckedString>,
    /// The wildcards for rules in its condition.
    pub fronts: Vec<Name<'a>>,
    /// Whether its condition has a set of rules. Nothing is promised of it.
    pub names_rules: bool,
    /// What all rules up to this one weigh.
    pub weight: u64,
}

/// What the rule's names are looked up in: those of the earlier rules and of its strings.
fn rule_around<'c, 'a>(
    at: &AtHand<'c, 'a>,
    rules: &'c Numbered<'a>,
    strings: &'c Numbered<'a>,
    first_string: u32,
) -> Around<'c, 'a>
    requires at { IsAtHand at.now }
    requires rules { rules.now ≡ at.now.space.now.rules }
    requires strings { strings.now ≡ names_of (placed_at at.now).rule }
    requires first { first_string ≡ first_string_of (placed_at at.now) }
    ensures { around_of result ≡ around (given_at at.now) (placed_at at.now) }
{
    Around {
        modules: &at.names.modules,
        imports: &at.space.imports,
        externals: at.externals,
        external_names: at.external_names,
        rules,
        rule_numbers: &at.space.numbers,
        strings,
        first_string,
    }
}

/// What the condition uses.
fn uses_at<'a>(
    alloc: Global,
    at: &AtHand<'_, 'a>,
    before: &Before,
    strings: &Numbered<'a>,
) -> Result<Uses<'a>, NoMemory>
    requires at { IsAtHand at.now }
    requires before { IsBefore (given_at at.now) (placed_at at.now) before.now }
    requires strings { strings.now ≡ names_of (placed_at at.now).rule }
    ensures { IfOk result (λ uses. uses ≡ rule_uses (given_at at.now) (placed_at at.now)) }
{
    let around = rule_around(at, &at.space.rules, strings, before.strings as u32);
    condition_uses(alloc, &around, &at.rule.condition)
}

fn node_kind(externals: &[External], node: &Option<Node>) -> Option<Kind>
    ensures { result ≡ option_and_then (λ n. kind_of (map external_of externals.now) n []) (option_map node_tree node.now) }
{
    match node {
        Some(node) => condition_kind(externals, node),
        None => None,
    }
}

/// The refusal of the rule by a check that fails.
fn refusal(alloc: Global, at: &AtHand<'_, '_>, before: &Before, fault: Fault<'_>) -> ResolveFault
    requires { IsBefore (given_at at.now) (placed_at at.now) before.now }
    ensures { Explains result (Some (fault_at (placed_at at.now) fault.entry)) }
{
    match refuse_rule(alloc, at, before.rules, fault.check, fault.finding) {
        Ok(refusal) => ResolveFault::Refused(refusal),
        Err(_) => ResolveFault::NoMemory,
    }
}

/// The first of the later checks that fails, but for the weight.
fn later_fault<'a>(
    alloc: Global,
    at: &AtHand<'_, 'a>,
    before: &Before,
    strings: &Numbered<'a>,
    uses: &Uses<'a>,
    findings: StringFindings<'a>,
    kind: Option<Kind>,
) -> Result<Option<Fault<'a>>, NoMemory>
    requires at { IsAtHand at.now }
    requires before { IsBefore (given_at at.now) (placed_at at.now) before.now }
    requires forms { HasForms (placed_at at.now).rule.condition }
    requires strings { strings.now ≡ names_of (placed_at at.now).rule }
    requires uses { uses.now ≡ rule_uses (given_at at.now) (placed_at at.now) }
    requires bad_hex { option_map finding_of findings.bad_hex ≡ first (patterns.bad_hex the_readers) (placed_at at.now).rule.strings }
    requires bad_regex { option_map finding_of findings.bad_regex ≡ first (patterns.bad_regex the_readers) (placed_at at.now).rule.strings }
    requires large { option_map finding_of findings.large ≡ first (patterns.large_string the_readers) (placed_at at.now).rule.strings }
    requires kind { kind ≡ option_and_then (λ n. kind_of (given_at at.now).externals n []) (rule_node (given_at at.now) (placed_at at.now)) }
    ensures { IfOk result (λ o. option_map (fault_at (placed_at at.now)) o ≡ first (late_fault (given_at at.now) (placed_at at.now)) checks) }
{
    let used = uses.items();
    let expressions = first_expression_findings(alloc, used)?;
    let unknown_string = first_unknown_string(alloc, strings, used)?;
    let unknown_name = first_unknown_name(alloc, &at.space.rules, used)?;
    let unused = first_unused(alloc, used, strings)?;
    let examined = Examined {
        at,
        uses,
        bad_hex: findings.bad_hex,
        bad_regex: findings.bad_regex,
        large: findings.large,
        bad_use: expressions.bad,
        large_use: expressions.large,
        unknown_string,
        unknown_name,
        unused,
        kind,
        rules_before: before.rules,
        strings_before: before.strings,
    };
    Ok(first_late(&examined, &CHECKS))
}

/// What a rule weighs without its strings.
fn rule_weight(at: &AtHand<'_, '_>, node: &Node) -> u64
    ensures { result ≡ min (weight_of_rule (checked.with_node (placed_at at.now) (node_tree node.now))) (2 ^ 64 - 1) }
{
    (at.rule.name.len() as u64)
        .saturating_add(tags_weight(&at.rule.tags))
        .saturating_add(meta_weight(&at.rule.meta))
        .saturating_add(condition_weight(node))
        .saturating_add(64)
}

/// The rule with this checked condition.
fn checked_rule(
    alloc: Global,
    at: &AtHand<'_, '_>,
    before: &Before,
    condition: Node,
) -> Result<CheckedRule, NoMemory>
    requires before { IsBefore (given_at at.now) (placed_at at.now) before.now }
    requires few { first_string_of (placed_at at.now) + length (placed_at at.now).rule.strings ≤ 65535 }
    ensures { IfOk result (λ r. checked_rule_of r ≡ checked.with_node (placed_at at.now) (node_tree condition)) }
{
    Ok(CheckedRule {
        namespace: copy_bytes(alloc, at.namespace)?,
        name: copy_bytes(alloc, &at.rule.name)?,
        global: at.rule.global,
        hidden: at.rule.hidden,
        tags: copy_tags(alloc, &at.rule.tags)?,
        meta: copy_meta(alloc, &at.rule.meta)?,
        first_string: before.strings as u32,
        string_count: at.rule.strings.len() as u32,
        condition,
    })
}

/// What is kept of a rule at which no check but the weight can fail.
fn make<'a>(
    alloc: Global,
    at: &AtHand<'_, 'a>,
    before: &Before,
    uses: &Uses<'a>,
    weight: u64,
    condition: Node,
) -> Result<Made<'a>, NoMemory>
    requires before { IsBefore (given_at at.now) (placed_at at.now) before.now }
    requires sound { Each IsSoundString (placed_at at.now).rule.strings }
    requires few_rules { number_of (placed_at at.now) + 1 ≤ 65535 }
    requires few_strings { first_string_of (placed_at at.now) + length (placed_at at.now).rule.strings ≤ 65535 }
    requires uses { uses.now ≡ rule_uses (given_at at.now) (placed_at at.now) }
    requires condition { rule_node (given_at at.now) (placed_at at.now) ≡ Some (node_tree condition) }
    requires weight { weight ≡ min (weight_of (checked.checked_rules (given_at at.now) (up_to (AtRule (placed_at at.now))))) (2 ^ 64 - 1) }
    ensures { IfOk result (IsMade (given_at at.now) (placed_at at.now)) }
{
    let strings = checked_strings(alloc, &at.rule.strings, before.rules as u32)?;
    let fronts = wildcards(alloc, uses.items())?;
    let rule = checked_rule(alloc, at, before, condition)?;
    Ok(Made {
        rule,
        strings,
        fronts,
        names_rules: has_rule_items(uses),
        weight,
    })
}

/// The refusal of the rule because the rules up to it are too heavy.
fn too_heavy(alloc: Global, at: &AtHand<'_, '_>, before: &Before) -> ResolveFault
    requires { IsBefore (given_at at.now) (placed_at at.now) before.now }
    ensures { Explains result (Some (at_rule (placed_at at.now) Check.Weight (finding Code.TooHeavy []))) }
{
    let finding = found(Code::TooHeavy, Named::Nothing);
    let check = Check::Weight;
    refusal(alloc, at, before, Fault { check, finding })
}

/// What the rules up to this one weigh.
fn weight_so_far(at: &AtHand<'_, '_>, before: &Before, strings_weight: u64, condition: &Node) -> u64
    requires before { IsBefore (given_at at.now) (placed_at at.now) before.now }
    requires strings { strings_weight ≡ min (total weight_of_string (checked.checked_strings (given_at at.now) (placed_at at.now))) (2 ^ 64 - 1) }
    requires condition { rule_node (given_at at.now) (placed_at at.now) ≡ Some (node_tree condition.now) }
    ensures { result ≡ min (weight_of (checked.checked_rules (given_at at.now) (up_to (AtRule (placed_at at.now))))) (2 ^ 64 - 1) }
{
    rule_weight(at, condition)
        .saturating_add(strings_weight)
        .saturating_add(before.weight)
}

/// The check of the weight for a rule whose names have numbers.
fn weigh_exact<'a>(
    alloc: Global,
    at: &AtHand<'_, 'a>,
    before: &Before,
    uses: &Uses<'a>,
    strings_weight: u64,
    condition: Node,
) -> Result<Made<'a>, ResolveFault>
    requires before { IsBefore (given_at at.now) (placed_at at.now) before.now }
    requires sound { Each IsSoundString (placed_at at.now).rule.strings }
    requires uses { uses.now ≡ rule_uses (given_at at.now) (placed_at at.now) }
    requires strings_weight { strings_weight ≡ min (total weight_of_string (checked.checked_strings (given_at at.now) (placed_at at.now))) (2 ^ 64 - 1) }
    requires condition { rule_node (given_at at.now) (placed_at at.now) ≡ Some (node_tree condition) }
    requires few_rules { number_of (placed_at at.now) + 1 ≤ 65535 }
    requires few_strings { first_string_of (placed_at at.now) + length (placed_at at.now).rule.strings ≤ 65535 }
    ensures made { IfOk result (IsMade (given_at at.now) (placed_at at.now)) }
    ensures passed { OnOk result (weight_fault (given_at at.now) (placed_at at.now) ≡ None) }
    ensures refused { IfErr result (λ e. Explains e (weight_fault (given_at at.now) (placed_at at.now))) }
{
    let weight = weight_so_far(at, before, strings_weight, &condition);
    if weight > WEIGHT_LIMIT {
        return Err(too_heavy(alloc, at, before));
    }
    let made = make(alloc, at, before, uses, weight, condition)?;
    Ok(made)
}

/// The check of the weight, and what is kept of the rule where it passes. There is no condition where the rule is seen to be too heavy without it.
fn weigh<'a>(
    alloc: Global,
    at: &AtHand<'_, 'a>,
    before: &Before,
    uses: &Uses<'a>,
    strings_weight: u64,
    node: Option<Node>,
) -> Result<Made<'a>, ResolveFault>
    requires before { IsBefore (given_at at.now) (placed_at at.now) before.now }
    requires sound { Each IsSoundString (placed_at at.now).rule.strings }
    requires uses { uses.now ≡ rule_uses (given_at at.now) (placed_at at.now) }
    requires strings_weight { strings_weight ≡ min (total weight_of_string (checked.checked_strings (given_at at.now) (placed_at at.now))) (2 ^ 64 - 1) }
    requires node { MatchOption node (IsTooHeavy (given_at at.now) (placed_at at.now)) (λ n. rule_node (given_at at.now) (placed_at at.now) ≡ Some (node_tree n)) }
    requires passed { first (late_fault (given_at at.now) (placed_at at.now)) checks ≡ None }
    ensures made { IfOk result (IsMade (given_at at.now) (placed_at at.now)) }
    ensures passed { OnOk result (weight_fault (given_at at.now) (placed_at at.now) ≡ None) }
    ensures refused { IfErr result (λ e. Explains e (weight_fault (given_at at.now) (placed_at at.now))) }
{
    match node {
        Some(condition) => weigh_exact(alloc, at, before, uses, strings_weight, condition),
        None => Err(too_heavy(alloc, at, before)),
    }
}

/// The checks that look at patterns and the condition. These are the names of the earlier rules and of the rule's strings, and
/// what the condition uses.
fn judge_named<'c, 's, 'a>(
    alloc: Global,
    at: &AtHand<'c, 'a>,
    before: &Before,
    rules: &'s Numbered<'a>,
    strings: &'s Numbered<'a>,
    uses: &Uses<'a>,
) -> Result<Made<'a>, ResolveFault>
    requires at { IsAtHand at.now }
    requires before { IsBefore (given_at at.now) (placed_at at.now) before.now }
    requires forms { RuleHasForms (placed_at at.now).rule }
    requires sound { Each IsSoundString (placed_at at.now).rule.strings }
    requires rules { rules.now ≡ at.now.space.now.rules }
    requires strings { strings.now ≡ names_of (placed_at at.now).rule }
    requires uses { uses.now ≡ rule_uses (given_at at.now) (placed_at at.now) }
    ensures made { IfOk result (IsMade (given_at at.now) (placed_at at.now)) }
    ensures passed { OnOk result (rest_fault (given_at at.now) (placed_at at.now) ≡ None) }
    ensures refused { IfErr result (λ e. Explains e (rest_fault (given_at at.now) (placed_at at.now))) }
{
    let around = rule_around(at, rules, strings, before.strings as u32);
    let sets = when_made(&around, uses);
    let node = first_node(alloc, at, &around, sets)?;
    let findings = string_findings(alloc, &at.rule.strings, before.rules as u32)?;
    let kind = node_kind(at.externals, &node);
    match later_fault(alloc, at, before, strings, uses, findings, kind)? {
        Some(fault) => Err(refusal(alloc, at, before, fault)),
        None => {
            let node = light_node(alloc, at, &around, sets, node)?;
            weigh(alloc, at, before, uses, findings.weight, node)
        }
    }
}

/// The checks that look at patterns and the condition.
fn judge_condition<'a>(
    alloc: Global,
    at: &AtHand<'_, 'a>,
    before: &Before,
) -> Result<Made<'a>, ResolveFault>
    requires at { IsAtHand at.now }
    requires before { IsBefore (given_at at.now) (placed_at at.now) before.now }
    requires forms { RuleHasForms (placed_at at.now).rule }
    requires sound { Each IsSoundString (placed_at at.now).rule.strings }
    ensures made { IfOk result (IsMade (given_at at.now) (placed_at at.now)) }
    ensures passed { OnOk result (rest_fault (given_at at.now) (placed_at at.now) ≡ None) }
    ensures refused { IfErr result (λ e. Explains e (rest_fault (given_at at.now) (placed_at at.now))) }
{
    let mut strings = string_names(alloc, &at.rule.strings)?;
    let uses = uses_at(alloc, at, before, &strings)?;
    sort_strings(&mut strings, &uses)?;
    match sorted_rules(alloc, &at.space.rules, &uses)? {
        Some(rules) => judge_named(alloc, at, before, &rules, &strings, &uses),
        None => judge_named(alloc, at, before, &at.space.rules, &strings, &uses),
    }
}

/// All checks on a rule, and what is kept of it where none fails.
pub fn judge<'a>(
    alloc: Global,
    at: &AtHand<'_, 'a>,
    before: &Before,
) -> Result<Made<'a>, ResolveFault>
    requires at { IsAtHand at.now }
    requires before { IsBefore (given_at at.now) (placed_at at.now) before.now }
    requires forms { RuleHasForms (placed_at at.now).rule }
    ensures made { IfOk result (IsMade (given_at at.now) (placed_at at.now)) }
    ensures passed { OnOk result (first (rule_fault (given_at at.now) (placed_at at.now)) checks ≡ None) }
    ensures refused { IfErr result (λ e. Explains e (first (rule_fault (given_at at.now) (placed_at at.now)) checks)) }
{
    match first_early(alloc, at, &CHECKS)? {
        Some(fault) => Err(refusal(alloc, at, before, fault)),
        None => judge_condition(alloc, at, before),
    }
}
