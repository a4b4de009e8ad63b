//! Numbers of names in the alphabetical order of the names.

ghost use Rattle.std.specs.Prelude.{◌≡◌, ◌+◌, ◌<◌, ◌≤◌, OnOk, length, map};
ghost use Rattle.yr_name_tables.specs.Order as spec;
ghost use Rattle.yr_name_tables.specs.Order.{IsOrder, IsPlace};

use std::alloc::AllocError;
use std::cmp::Ordering;

/// How a name stands to those that an item means, which lie side by side in the alphabet.
fn stands(front: &[u8], wild: bool, name: &[u8]) -> Ordering
    ensures { result ≡ spec.stands front.now wild name.now }
{
    if wild {
        let size = front.len().min(name.len());
        name[..size].cmp(front)
    } else {
        name.cmp(front)
    }
}

/// Whether a name comes before those that an item means, or with `through` is one of them.
fn comes_before(front: &[u8], wild: bool, through: bool, name: &[u8]) -> bool
    ensures { result ≡ spec.comes_before front.now wild through name.now }
{
    match stands(front, wild, name) {
        Ordering::Less => true,
        Ordering::Equal => through,
        Ordering::Greater => false,
    }
}

/// The first place at which a name does not come before those that an item means, or with `through` comes after them.
pub fn place(order: &[u32], names: &[&[u8]], front: &[u8], wild: bool, through: bool) -> usize
    requires { IsOrder order.now (map (λ n. n.now) names.now) }
    ensures within { result ≤ length order.now }
    ensures place { IsPlace order.now (map (λ n. n.now) names.now) front.now wild through result }
{
    let mut low = 0;
    let mut high = order.len();
    while low < high {
        let middle = low + (high - low) / 2;
        let name = names[order[middle] as usize];
        if comes_before(front, wild, through, name) {
            low = middle + 1;
        } else {
            high = middle;
        }
    }
    low
}

/// Brings the first name that is missing to its place, behind those that are equal to it.
fn add_next(order: &mut Vec<u32>, names: &[&[u8]], number: u32) -> Result<(), AllocError>
    requires order { IsOrder order.old.items (map (λ n. n.now) names.now) }
    requires number { number ≡ length order.old.items }
    requires missing { number < length names.now }
    ensures order { IsOrder order.new.items (map (λ n. n.now) names.now) }
    ensures longer { OnOk result (length order.new.items ≡ length order.old.items + 1) }
{
    let at = place(order, names, names[number as usize], false, true);
    order.insert(at, number)?;
    Ok(())
}

/// Brings the names that are missing to their places.
pub fn sort_names(order: &mut Vec<u32>, names: &[&[u8]]) -> Result<(), AllocError>
    requires { IsOrder order.old.items (map (λ n. n.now) names.now) }
    ensures { IsOrder order.new.items (map (λ n. n.now) names.now) }
{
    while order.len() < names.len() {
        let Ok(number) = u32::try_from(order.len()) else {
            return Ok(());
        };
        add_next(order, names, number)?;
    }
    Ok(())
}
