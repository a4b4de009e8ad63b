//! Names and their numbers.

ghost use Rattle.std.specs.Prelude.{◌≡◌, ◌++◌, ◌∷◌, [], ◌<◌, length, IfOk, OnOk, if◌then◌else◌};
ghost use Rattle.yr_name_tables.specs.Names.{has};
ghost use Rattle.yr_name_tables.specs.Places.{with_name};

use indexmap::IndexSet;
use std::alloc::{AllocError, Global};
use std::marker::Model;

/// Names, each once, in the order in which they were added.
#[derive(Drop)]
pub struct Table<'a> {
    names: IndexSet<&'a [u8]>,
}

impl<'a> Model for Table<'a> {
    ghost use Rattle.std.specs.Prelude.{ℕ, List, map};

    ghost Value = { List (List ℕ) };

    ghost view = { λ t. map (λ k. k.now) t.names.keys };
}

impl<'a> Table<'a> {
    pub fn new(alloc: Global) -> Table<'a>
        ensures { result ≡ [] }
    {
        Table {
            names: IndexSet::new(alloc),
        }
    }

    pub fn has(&self, name: &[u8]) -> bool
        ensures { result ≡ has name.now self.now }
    {
        self.names.contains(name)
    }

    /// Adds a name, unless it is there.
    pub fn add(&mut self, name: &'a [u8]) -> Result<(), AllocError>
        ensures { OnOk result (self.new ≡ with_name name.now self.old) }
    {
        self.names.insert(name)?;
        Ok(())
    }
}
