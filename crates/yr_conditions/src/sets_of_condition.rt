//! What the sets of a condition weigh, as far as a limit.

ghost use Rattle.std.specs.Prelude.{◌≡◌, ◌+◌, ◌≤◌, IfOk, map, min};
ghost use Rattle.std.specs.Option.{option_map};
ghost use Rattle.yr_rules.specs.Weight.{set_weight};
ghost use Rattle.yr_syntax.specs.Condition.{tree_of, asked_of, where_of, domain_of, bounds_of, links_of, link_of, items_of, set_of, boxed};
ghost use Rattle.yr_conditions.specs.Around.{around_of};
ghost use Rattle.yr_conditions.specs.Nodes.{set_node};
ghost use Rattle.yr_conditions.specs.SetWeights as spec;
ghost use Rattle.yr_conditions.specs.WeightParts.{index_sets, range_sets};

use crate::weight_prefix::behind_prefixes;
use crate::{Around, set_size};
use std::alloc::Global;
use yr_base::NoMemory;
use yr_syntax::{Cond, Link, Over, Place, Quant, Range, SetRef};

/// Adds what the members of the set weigh. Where the limit is reached, it does not look at the set.
fn add_set(
    alloc: Global,
    around: &Around<'_, '_>,
    set: &SetRef,
    so_far: u64,
    limit: u64,
) -> Result<u64, NoMemory>
    requires { so_far ≤ limit }
    ensures { IfOk result (λ w. w ≡ min (so_far + set_weight (set_node (around_of around.now) (set_of set.now))) limit) }
{
    if so_far == limit {
        return Ok(limit);
    }
    let members = set_size(alloc, around, set)? as u64;
    let more = so_far.saturating_add(members.saturating_mul(16));
    Ok(more.min(limit))
}

/// Adds what the sets of the condition weigh.
#[cycle(sets)]
fn add_sets(
    alloc: Global,
    around: &Around<'_, '_>,
    condition: &Cond,
    so_far: u64,
    limit: u64,
) -> Result<u64, NoMemory>
    requires { so_far ≤ limit }
    ensures { IfOk result (λ w. w ≡ min (so_far + spec.set_weights (around_of around.now) (tree_of condition.now)) limit) }
{
    match condition {
        Cond::Number(_) | Cond::Text(_) | Cond::Flag(_) | Cond::FileSize | Cond::Path(_) => {
            Ok(so_far)
        }
        Cond::Found { place, .. } => add_place_sets(alloc, around, place, so_far, limit),
        Cond::Count { range, .. } => add_range_sets(alloc, around, range, so_far, limit),
        Cond::Offset { index, .. } | Cond::Length { index, .. } => {
            add_index_sets(alloc, around, index, so_far, limit)
        }
        Cond::Read { at, .. } => add_sets(alloc, around, at, so_far, limit),
        Cond::Prefix { inner, .. } => {
            add_sets(alloc, around, behind_prefixes(inner), so_far, limit)
        }
        Cond::Chain { first, rest } => {
            let with_first = add_sets(alloc, around, first, so_far, limit)?;
            add_link_sets(alloc, around, rest, with_first, limit)
        }
        Cond::Matches { text, .. } => add_sets(alloc, around, text, so_far, limit),
        Cond::Of { quant, set, place } => {
            let with_quant = add_asked_sets(alloc, around, quant, so_far, limit)?;
            let with_set = add_set(alloc, around, set, with_quant, limit)?;
            add_place_sets(alloc, around, place, with_set, limit)
        }
        Cond::ForOf { quant, set, body } => {
            let with_quant = add_asked_sets(alloc, around, quant, so_far, limit)?;
            let with_set = add_set(alloc, around, set, with_quant, limit)?;
            add_sets(alloc, around, body, with_set, limit)
        }
        Cond::ForIn {
            quant,
            over,
            body,
            ..
        } => {
            let with_quant = add_asked_sets(alloc, around, quant, so_far, limit)?;
            let with_domain = add_domain_sets(alloc, around, over, with_quant, limit)?;
            add_sets(alloc, around, body, with_domain, limit)
        }
    }
}

#[cycle(sets)]
fn add_link_sets(
    alloc: Global,
    around: &Around<'_, '_>,
    links: &[Link],
    so_far: u64,
    limit: u64,
) -> Result<u64, NoMemory>
    requires { so_far ≤ limit }
    ensures { IfOk result (λ w. w ≡ min (so_far + spec.link_sets (around_of around.now) (links_of (map link_of links.now))) limit) }
{
    let mut total = so_far;
    for link in links {
        total = add_sets(alloc, around, &link.operand, total, limit)?;
    }
    Ok(total)
}

#[cycle(sets)]
fn add_item_sets(
    alloc: Global,
    around: &Around<'_, '_>,
    items: &[Cond],
    so_far: u64,
    limit: u64,
) -> Result<u64, NoMemory>
    requires { so_far ≤ limit }
    ensures { IfOk result (λ w. w ≡ min (so_far + spec.item_sets (around_of around.now) (items_of (map tree_of items.now))) limit) }
{
    let mut total = so_far;
    for item in items {
        total = add_sets(alloc, around, item, total, limit)?;
    }
    Ok(total)
}

#[cycle(sets)]
fn add_bounds_sets(
    alloc: Global,
    around: &Around<'_, '_>,
    range: &Range,
    so_far: u64,
    limit: u64,
) -> Result<u64, NoMemory>
    requires { so_far ≤ limit }
    ensures { IfOk result (λ w. w ≡ min (so_far + (spec.set_weights (around_of around.now) (bounds_of range.now).low + spec.set_weights (around_of around.now) (bounds_of range.now).high)) limit) }
{
    let with_low = add_sets(alloc, around, &range.low, so_far, limit)?;
    add_sets(alloc, around, &range.high, with_low, limit)
}

#[cycle(sets)]
fn add_range_sets(
    alloc: Global,
    around: &Around<'_, '_>,
    range: &Option<Range>,
    so_far: u64,
    limit: u64,
) -> Result<u64, NoMemory>
    requires { so_far ≤ limit }
    ensures { IfOk result (λ w. w ≡ min (so_far + range_sets (around_of around.now) (option_map bounds_of range.now)) limit) }
{
    match range {
        None => Ok(so_far),
        Some(range) => add_bounds_sets(alloc, around, range, so_far, limit),
    }
}

#[cycle(sets)]
fn add_index_sets(
    alloc: Global,
    around: &Around<'_, '_>,
    index: &Option<Box<Cond>>,
    so_far: u64,
    limit: u64,
) -> Result<u64, NoMemory>
    requires { so_far ≤ limit }
    ensures { IfOk result (λ w. w ≡ min (so_far + index_sets (around_of around.now) (option_map tree_of (boxed index.now))) limit) }
{
    match index {
        None => Ok(so_far),
        Some(index) => add_sets(alloc, around, index, so_far, limit),
    }
}

#[cycle(sets)]
fn add_place_sets(
    alloc: Global,
    around: &Around<'_, '_>,
    place: &Place,
    so_far: u64,
    limit: u64,
) -> Result<u64, NoMemory>
    requires { so_far ≤ limit }
    ensures { IfOk result (λ w. w ≡ min (so_far + spec.where_sets (around_of around.now) (where_of place.now)) limit) }
{
    match place {
        Place::Anywhere => Ok(so_far),
        Place::At(at) => add_sets(alloc, around, at, so_far, limit),
        Place::Within(range) => add_bounds_sets(alloc, around, range, so_far, limit),
    }
}

#[cycle(sets)]
fn add_asked_sets(
    alloc: Global,
    around: &Around<'_, '_>,
    quant: &Quant,
    so_far: u64,
    limit: u64,
) -> Result<u64, NoMemory>
    requires { so_far ≤ limit }
    ensures { IfOk result (λ w. w ≡ min (so_far + spec.asked_sets (around_of around.now) (asked_of quant.now)) limit) }
{
    match quant {
        Quant::All | Quant::Any | Quant::Nil => Ok(so_far),
        Quant::Number(count) | Quant::Percent(count) => {
            add_sets(alloc, around, count, so_far, limit)
        }
    }
}

#[cycle(sets)]
fn add_domain_sets(
    alloc: Global,
    around: &Around<'_, '_>,
    over: &Over,
    so_far: u64,
    limit: u64,
) -> Result<u64, NoMemory>
    requires { so_far ≤ limit }
    ensures { IfOk result (λ w. w ≡ min (so_far + spec.domain_sets (around_of around.now) (domain_of over.now)) limit) }
{
    match over {
        Over::Range(range) => add_bounds_sets(alloc, around, range, so_far, limit),
        Over::List(items) => add_item_sets(alloc, around, items, so_far, limit),
        Over::Path(_) => Ok(so_far),
    }
}

/// What the sets of a whole condition weigh, or the limit where they weigh more. Sets in paths are left out. The allocator serves the count of one set at a time:
/// the members are not kept.
pub fn sets_weight(
    alloc: Global,
    around: &Around<'_, '_>,
    condition: &Cond,
    limit: u64,
) -> Result<u64, NoMemory>
    ensures { IfOk result (λ w. w ≡ min (spec.set_weights (around_of around.now) (tree_of condition.now)) limit) }
{
    add_sets(alloc, around, condition, 0, limit)
}
