//! Names that a set means, found by a walk over all of them.

ghost use Rattle.std.specs.Prelude.{◌≡◌, IfOk, map, true};
ghost use Rattle.std.specs.List.{list_any};
ghost use Rattle.yr_syntax.specs.Condition.{item_of};
ghost use Rattle.yr_name_tables.specs.Names as spec;

use crate::item::begins;
use crate::numbered::Numbered;
use crate::wanted::Wanted;
use std::alloc::{AllocError, Global};
use yr_syntax::SetItem;

/// The numbers of the names that one of the items means.
pub fn numbers_walked(
    alloc: Global,
    items: &[SetItem],
    names: &Numbered<'_>,
) -> Result<Vec<usize>, AllocError>
    ensures { IfOk result (λ met. met.items ≡ spec.numbers_meant (map item_of items.now) 0 names.now) }
{
    let wanted = Wanted::new(alloc, items)?;
    let mut met = Vec::new(alloc);
    for number in 0..names.len() {
        if wanted.means(names.name(number)) {
            met.push(number)?;
        }
    }
    Ok(met)
}

/// Whether one of the names begins so.
pub fn begins_one(front: &[u8], names: &Numbered<'_>) -> bool
    ensures { result ≡ list_any (spec.means front.now true) names.now }
{
    for number in 0..names.len() {
        if begins(front, names.name(number)) {
            return true;
        }
    }
    false
}
