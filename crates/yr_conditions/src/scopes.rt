//! The open loops of a condition.

ghost use Rattle.std.specs.Prelude.{◌≡◌, ◌∷◌, [], OnOk, drop, length, map};
ghost use Rattle.std.specs.Option.{option_map};
ghost use Rattle.yr_conditions.specs.Meanings as spec;
ghost use Rattle.yr_conditions.specs.UseViews.{innermost_first, is_over_members, own_meaning, scope_of, shown};

use crate::meaning::{Index, Meaning};
use std::alloc::Global;
use std::marker::Model;
use yr_base::NoMemory;
use yr_values::Module;

/// An open loop: over the members of a set, over numbers by a variable, or by a variable over the entries of a module's array.
#[derive(Clone, Copy)]
pub enum Scope<'a> {
    Members,
    Numbers(&'a [u8]),
    Entries(&'a [u8], &'a Module, &'a [u8]),
}

/// The open loops. Contracts see the innermost first.
#[derive(Drop)]
pub struct Scopes<'a> {
    loops: Vec<Scope<'a>>,
}

impl<'a> Model for Scopes<'a> {
    ghost use Rattle.std.specs.Prelude.{List, map};
    ghost use Rattle.std.specs.Coded.{codes};
    ghost use Rattle.yr_conditions.specs.Meanings.{Scope as PlainScope};
    ghost use Rattle.yr_conditions.specs.UseViews.{innermost_first, scope_of};

    ghost Value = { List PlainScope };

    ghost view = { λ s. innermost_first (map scope_of s.loops.items) };
}

impl<'a> Scopes<'a> {
    /// No loop.
    pub fn new(alloc: Global) -> Scopes<'a>
        ensures { result ≡ [] }
    {
        Scopes {
            loops: Vec::new(alloc),
        }
    }

    pub fn enter(&mut self, inner: Scope<'a>) -> Result<(), NoMemory>
        ensures { OnOk result (self.new ≡ scope_of inner.entry ∷ self.old) }
    {
        self.loops.push(inner)?;
        Ok(())
    }

    pub fn leave(&mut self)
        ensures { self.new ≡ drop 1 self.old }
    {
        self.loops.pop();
    }

    /// How many loops are open.
    pub fn count(&self) -> usize
        ensures { result ≡ length self.now }
    {
        self.loops.len()
    }

    /// What the word means as a variable: the innermost of that name.
    pub fn variable(&self, word: &[u8]) -> Option<Meaning<'a>>
        ensures { option_map shown result ≡ spec.variable_meaning word.now self.now }
    {
        variable_in(&self.loops, word)
    }

    /// The number of the innermost loop over members.
    pub fn current(&self) -> Option<usize>
        ensures { result ≡ spec.current_of self.now }
    {
        current_in(&self.loops)
    }
}

/// What the word means as the variable of a loop, whose number this is.
fn variable_of<'a>(scope: Scope<'a>, number: usize, word: &[u8]) -> Option<Meaning<'a>>
    ensures { option_map shown result ≡ own_meaning word.now number (scope_of scope.entry) }
{
    match scope {
        Scope::Members => None,
        Scope::Numbers(name) => {
            if word == name {
                Some(Meaning::Variable(number))
            } else {
                None
            }
        }
        Scope::Entries(name, module, path) => {
            if word == name {
                Some(Meaning::Entry {
                    module,
                    path,
                    index: Index::OfLoop(number),
                })
            } else {
                None
            }
        }
    }
}

fn variable_in<'a>(loops: &[Scope<'a>], word: &[u8]) -> Option<Meaning<'a>>
    ensures { option_map shown result ≡ spec.variable_meaning word.now (innermost_first (map scope_of loops.now)) }
{
    let mut left = loops.len();
    while left > 0 {
        left -= 1;
        let found = variable_of(loops[left], left, word);
        if found.is_some() {
            return found;
        }
    }
    None
}

fn is_members(scope: Scope<'_>) -> bool
    ensures { result ≡ is_over_members (scope_of scope.entry) }
{
    match scope {
        Scope::Members => true,
        _ => false,
    }
}

fn current_in(loops: &[Scope<'_>]) -> Option<usize>
    ensures { result ≡ spec.current_of (innermost_first (map scope_of loops.now)) }
{
    let mut left = loops.len();
    while left > 0 {
        left -= 1;
        if is_members(loops[left]) {
            return Some(left);
        }
    }
    None
}
