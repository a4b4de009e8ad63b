//! What a condition uses.

ghost use Rattle.std.specs.Prelude.{◌≡◌, ◌++◌, ◌∷◌, [], OnOk, map};
ghost use Rattle.yr_conditions.specs.UseViews.{use_of};

use std::alloc::Global;
use std::marker::Model;
use yr_base::NoMemory;
use yr_syntax::RegexText;

/// One thing that a condition uses.
#[derive(Clone, Copy)]
pub enum Use<'a> {
    /// A string by its sign and its name.
    String(u8, &'a [u8]),
    /// A sign alone where no loop gives it a string.
    Nameless(u8),
    /// An item of a set of strings, with whether a `*` follows.
    Member(&'a [u8], bool),
    /// All strings.
    Everything,
    /// An item of a set of rules, with whether a `*` follows.
    Earlier(&'a [u8], bool),
    /// A word without a meaning, or a field that its module lacks.
    Unknown(&'a [u8]),
    /// The expression of a `matches`.
    Expression(&'a RegexText),
    /// A loop, with how many stand round it.
    Loop(usize),
    /// A loop's list, with how many items it has.
    Listed(usize),
}

/// All that a condition uses, in the order of its text. Contracts see a list.
#[derive(Drop)]
pub struct Uses<'a> {
    all: Vec<Use<'a>>,
}

impl<'a> Model for Uses<'a> {
    ghost use Rattle.std.specs.Prelude.{List, map};
    ghost use Rattle.yr_conditions.specs.Uses.{Use as PlainUse};
    ghost use Rattle.yr_conditions.specs.UseViews.{use_of};

    ghost Value = { List PlainUse };

    ghost view = { λ u. map use_of u.all.items };
}

impl<'a> Uses<'a> {
    pub fn new(alloc: Global) -> Uses<'a>
        ensures { result ≡ [] }
    {
        Uses {
            all: Vec::new(alloc),
        }
    }

    pub fn push(&mut self, used: Use<'a>) -> Result<(), NoMemory>
        ensures { OnOk result (self.new ≡ self.old ++ use_of used.entry ∷ []) }
    {
        self.all.push(used)?;
        Ok(())
    }

    pub fn items(&self) -> &[Use<'a>]
        ensures { map use_of result.now ≡ self.now }
    {
        &self.all
    }
}
