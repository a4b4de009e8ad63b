//! The items of a set, ready to be asked about many names.

ghost use Rattle.std.specs.Prelude.{◌≡◌, IfOk, map};
ghost use Rattle.yr_syntax.specs.Condition.{item_of};
ghost use Rattle.yr_name_tables.specs.Names as spec;
ghost use Rattle.yr_name_tables.specs.Wanted.{AreApart};

use crate::front::has_front;
use crate::item::means;
use crate::numbered::Numbered;
use std::alloc::{AllocError, Global};
use std::marker::Model;
use yr_syntax::SetItem;

/// A name is compared with so many items in the time in which one of its beginnings is looked up.
const FEW: usize = 8;

/// The names of items, those with a `*` and those without one apart.
#[derive(Drop)]
struct Apart<'a> {
    wholes: Numbered<'a>,
    /// The names with a `*`, without it.
    fronts: Numbered<'a>,
}

/// The items of a set. Where they are many, a name is looked up among them and not compared with each, so that it takes no
/// longer the more they are. Contracts see the items.
#[derive(Drop)]
pub struct Wanted<'a> {
    items: &'a [SetItem],
    /// Where there are many.
    apart: Option<Apart<'a>>,
}

impl<'a> Model for Wanted<'a> {
    ghost use Rattle.std.specs.Prelude.{IfSome, List, map};
    ghost use Rattle.yr_syntax.specs.Condition.{ItemTree, item_of};
    ghost use Rattle.yr_name_tables.specs.Wanted.{AreApart};

    ghost Value = { List ItemTree };

    ghost view = { λ w. map item_of w.items.now };

    ghost invariant = { λ w. IfSome w.apart (λ a. AreApart (map item_of w.items.now) a.wholes a.fronts) };
}

/// The names of the items, in order.
fn names_apart<'a>(alloc: Global, items: &'a [SetItem]) -> Result<Apart<'a>, AllocError>
    ensures { IfOk result (λ a. AreApart (map item_of items.now) a.wholes a.fronts) }
{
    let mut wholes = Numbered::new(alloc);
    let mut fronts = Numbered::new(alloc);
    for item in items {
        if item.wild {
            fronts.add(&item.name)?;
        } else {
            wholes.add(&item.name)?;
        }
    }
    Ok(Apart { wholes, fronts })
}

/// Whether one of the items means the name.
#[tactic(auto, unfolding(crate::specs::Names::is_meant))]
fn is_meant(items: &[SetItem], name: &[u8]) -> bool
    ensures { result ≡ spec.is_meant (map item_of items.now) name.now }
{
    for item in items {
        if means(&item.name, item.wild, name) {
            return true;
        }
    }
    false
}

impl<'a> Wanted<'a> {
    pub fn new(alloc: Global, items: &'a [SetItem]) -> Result<Wanted<'a>, AllocError>
        ensures { IfOk result (λ w. w ≡ map item_of items.now) }
    {
        let apart = if items.len() > FEW {
            Some(names_apart(alloc, items)?)
        } else {
            None
        };
        Ok(Wanted { items, apart })
    }

    /// Whether one of the items means the name.
    pub fn means(&self, name: &[u8]) -> bool
        ensures { result ≡ spec.is_meant self.now name.now }
    {
        if let Some(apart) = &self.apart
            && self.items.len() / FEW > name.len()
        {
            apart.wholes.has(name) || has_front(&apart.fronts, name)
        } else {
            is_meant(self.items, name)
        }
    }
}
