//! Names that a set means, found where they lie in the alphabetical order.

ghost use Rattle.std.specs.Prelude.{◌≡◌, ◌≤◌, ◌++◌, All, IfOk, OnOk, length, map};
ghost use Rattle.std.specs.List.Sorted.{IsNonDecreasingBy};
ghost use Rattle.yr_syntax.specs.Condition.{item_of};
ghost use Rattle.yr_name_tables.specs.Names as spec;
ghost use Rattle.yr_name_tables.specs.Order.{AreRanges, IsOrder, IsRange, is_covered, kept};

use crate::order::place;
use std::alloc::{AllocError, Global};
use yr_syntax::SetItem;

/// The places of an order from `low` on, below `high`. There are none where `high` is not above `low`.
#[derive(Clone, Copy)]
pub struct Range {
    pub low: usize,
    pub high: usize,
}

/// The places of the names that an item means.
pub fn range_of(order: &[u32], names: &[&[u8]], front: &[u8], wild: bool) -> Range
    requires { IsOrder order.now (map (λ n. n.now) names.now) }
    ensures { IsRange order.now (map (λ n. n.now) names.now) front.now wild result }
{
    Range {
        low: place(order, names, front, wild, false),
        high: place(order, names, front, wild, true),
    }
}

/// The places of the names that each item means.
fn ranges_of(
    alloc: Global,
    order: &[u32],
    names: &[&[u8]],
    items: &[SetItem],
) -> Result<Vec<Range>, AllocError>
    requires { IsOrder order.now (map (λ n. n.now) names.now) }
    ensures { IfOk result (λ ranges. AreRanges order.now (map (λ n. n.now) names.now) (map item_of items.now) ranges.items) }
{
    let mut ranges = Vec::new(alloc);
    for item in items {
        let range = range_of(order, names, &item.name, item.wild);
        ranges.push(range)?;
    }
    Ok(ranges)
}

fn add_numbers(met: &mut Vec<usize>, numbers: &[u32]) -> Result<(), AllocError>
    ensures { OnOk result (met.new.items ≡ met.old.items ++ numbers.now) }
{
    for number in numbers {
        met.push(*number as usize)?;
    }
    Ok(())
}

/// The numbers at the places that the ranges have, each once: where a range reaches into an earlier one, what is left of it
/// is taken.
fn swept(alloc: Global, order: &[u32], ranges: &[Range]) -> Result<Vec<usize>, AllocError>
    requires ascending { IsNonDecreasingBy (λ range. range.low) ranges.now }
    requires within { All (λ range. range.high ≤ length order.now) ranges.now }
    ensures { IfOk result (λ met. met.items ≡ kept (is_covered ranges.now) 0 order.now) }
{
    let mut met = Vec::new(alloc);
    let mut end = 0;
    for range in ranges {
        let start = range.low.max(end);
        if start < range.high {
            add_numbers(&mut met, &order[start..range.high])?;
            end = range.high;
        }
    }
    Ok(met)
}

/// The numbers of the names that one of the items means, of names that are all in the order.
pub fn numbers_ordered(
    alloc: Global,
    order: &[u32],
    names: &[&[u8]],
    items: &[SetItem],
) -> Result<Vec<usize>, AllocError>
    requires order { IsOrder order.now (map (λ n. n.now) names.now) }
    requires whole { length order.now ≡ length names.now }
    ensures { IfOk result (λ met. met.items ≡ spec.numbers_meant (map item_of items.now) 0 (map (λ n. n.now) names.now)) }
{
    let mut ranges = ranges_of(alloc, order, names, items)?;
    ranges.sort_unstable_by_key(|range| range.low);
    let mut met = swept(alloc, order, &ranges)?;
    met.sort_unstable();
    Ok(met)
}
