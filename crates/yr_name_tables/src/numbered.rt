//! Names with their numbers.

ghost use Rattle.std.specs.Prelude.{◌≡◌, ◌++◌, ◌∷◌, [], ◌<◌, length, slice_index_or, IfSome, IfOk, OnOk, OnErr, map, is_some, true, All};
ghost use Rattle.std.specs.List.{list_any};
ghost use Rattle.yr_syntax.specs.Condition.{item_of};
ghost use Rattle.yr_name_tables.specs.Names.{has, place_of, means};
ghost use Rattle.yr_name_tables.specs.Names as spec;
ghost use Rattle.yr_name_tables.specs.Places.{IsPlaceAdded};

use crate::order::sort_names;
use crate::ranges::{numbers_ordered, range_of};
use crate::walk::{begins_one, numbers_walked};
use indexmap::IndexMap;
use std::alloc::{AllocError, Global};
use std::marker::Model;
use yr_syntax::SetItem;

/// A list of names, in which a name may stand again, with where each stands first.
#[derive(Drop)]
pub struct Numbered<'a> {
    names: Vec<&'a [u8]>,
    places: IndexMap<&'a [u8], usize>,
    /// The numbers of the names in the order of their bytes. The last names may be missing.
    order: Vec<u32>,
}

impl<'a> Model for Numbered<'a> {
    ghost use Rattle.std.specs.Prelude.{ℕ, List, map};
    ghost use Rattle.yr_name_tables.specs.Places.{ArePlaces};
    ghost use Rattle.yr_name_tables.specs.Order.{IsOrder};

    ghost Value = { List (List ℕ) };

    ghost view = { λ t. map (λ k. k.now) t.names.items };

    ghost invariant = { λ t. ArePlaces t.places.entries (map (λ k. k.now) t.names.items)
        × IsOrder t.order.items (map (λ k. k.now) t.names.items) };
}

/// Notes where a name stands, unless it stands earlier.
fn add_place<'a>(
    places: &mut IndexMap<&'a [u8], usize>,
    name: &'a [u8],
    place: usize,
) -> Result<(), AllocError>
    ensures ok { OnOk result (IsPlaceAdded places.old.entries name.entry place places.new.entries) }
    ensures err { OnErr result (places.new.entries ≡ places.old.entries) }
{
    if !places.contains_key(name) {
        places.insert(name, place)?;
    }
    Ok(())
}

impl<'a> Numbered<'a> {
    pub fn new(alloc: Global) -> Numbered<'a>
        ensures { result ≡ [] }
    {
        Numbered {
            names: Vec::new(alloc),
            places: IndexMap::new(alloc),
            order: Vec::new(alloc),
        }
    }

    pub fn len(&self) -> usize
        ensures { result ≡ length self.now }
    {
        self.names.len()
    }

    pub fn name(&self, number: usize) -> &'a [u8]
        requires { number < length self.now }
        ensures { result.now ≡ slice_index_or self.now number result.now }
    {
        self.names[number]
    }

    /// Where the name stands first.
    pub fn number(&self, name: &[u8]) -> Option<usize>
        ensures value { result ≡ place_of name.now self.now }
        ensures within { IfSome result (λ k. k < length self.now) }
    {
        self.places.get(name).copied()
    }

    pub fn has(&self, name: &[u8]) -> bool
        ensures { result ≡ has name.now self.now }
    {
        self.number(name).is_some()
    }

    pub fn add(&mut self, name: &'a [u8]) -> Result<(), AllocError>
        ensures { OnOk result (self.new ≡ self.old ++ name.now ∷ []) }
    {
        self.names.reserve(1)?;
        add_place(&mut self.places, name, self.names.len())?;
        self.names.push(name)?;
        Ok(())
    }

    /// Brings the names into alphabetical order, beside the order in which they were added, so that those which an item
    /// means are found without a walk over all of them. A name that is added later comes in with the next call.
    pub fn sort(&mut self) -> Result<(), AllocError>
        ensures { self.new ≡ self.old }
    {
        sort_names(&mut self.order, &self.names)
    }

    /// Whether all names are in alphabetical order. This tells how long the calls below take, and nothing else.
    pub fn is_sorted(&self) -> bool {
        self.order.len() == self.names.len()
    }

    /// The numbers of the names that one of the items means, in the order in which the names were added.
    pub fn numbers_meant(&self, alloc: Global, items: &[SetItem]) -> Result<Vec<usize>, AllocError>
        ensures numbers { IfOk result (λ met. met.items ≡ spec.numbers_meant (map item_of items.now) 0 self.now) }
        ensures within { IfOk result (λ met. All (λ k. k < length self.now) met.items) }
    {
        if self.order.len() == self.names.len() && items.len() <= self.names.len() {
            numbers_ordered(alloc, &self.order, &self.names, items)
        } else {
            numbers_walked(alloc, items, self)
        }
    }

    /// Whether one of the names begins so.
    pub fn begins_some(&self, front: &[u8]) -> bool
        ensures { result ≡ list_any (means front.now true) self.now }
    {
        if self.order.len() == self.names.len() {
            let range = range_of(&self.order, &self.names, front, true);
            range.low < range.high
        } else {
            begins_one(front, self)
        }
    }
}
