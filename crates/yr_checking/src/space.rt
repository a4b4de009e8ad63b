//! What is kept of the namespaces.

ghost use Rattle.std.specs.Prelude.{◌≡◌, ◌<◌, ◌++◌, ◌∷◌, [], IfOk, OnOk, Some, length, map, slice_get};
ghost use Rattle.yr_checking.specs.Spaces.{IsFirstNamed, found_space, no_space, space_shown, with_import, with_rule};

use std::alloc::Global;
use yr_base::NoMemory;
use yr_name_tables::{Name, Numbered};

/// A namespace as far as the checks have come.
#[derive(Drop)]
pub struct Space<'a> {
    pub name: Name<'a>,
    /// The names that stand imported.
    pub imports: Numbered<'a>,
    /// The names of its rules, and their numbers.
    pub rules: Numbered<'a>,
    pub numbers: Vec<u32>,
    /// The wildcards for rules in its conditions, without their `*`.
    pub fronts: Numbered<'a>,
    /// Whether the names of its rules are kept in alphabetical order: from the first rule on whose condition has a set of
    /// rules. It decides only how long later sets take.
    pub in_order: bool,
}

fn new_space<'a>(alloc: Global, name: &'a [u8]) -> Space<'a>
    ensures name { result.name ≡ name.now }
    ensures nothing { space_shown result ≡ no_space }
{
    Space {
        name: Name::new(name),
        imports: Numbered::new(alloc),
        rules: Numbered::new(alloc),
        numbers: Vec::new(alloc),
        fronts: Numbered::new(alloc),
        in_order: false,
    }
}

/// The place of the namespace among those that there are, or their number.
fn space_place(spaces: &[Space<'_>], name: &[u8]) -> usize
    ensures { IsFirstNamed name.now spaces.now result }
{
    for place in 0..spaces.len() {
        if name == spaces[place].name.bytes() {
            return place;
        }
    }
    spaces.len()
}

/// The place of the namespace, which is added where it is not there.
pub fn open_space<'a>(
    alloc: Global,
    spaces: &mut Vec<Space<'a>>,
    name: &'a [u8],
) -> Result<usize, NoMemory>
    ensures within { IfOk result (λ k. k < length spaces.new.items) }
    ensures first { IfOk result (λ k. IsFirstNamed name.now spaces.new.items k) }
    ensures same { OnOk result ((q : _) → found_space q spaces.new.items ≡ found_space q spaces.old.items) }
{
    let place = space_place(spaces, name);
    if place < spaces.len() {
        return Ok(place);
    }
    spaces.push(new_space(alloc, name))?;
    Ok(place)
}

/// Adds an import.
pub fn add_import<'a>(space: &mut Space<'a>, name: &'a [u8]) -> Result<(), NoMemory>
    ensures name { OnOk result (space.new.name ≡ space.old.name) }
    ensures shown { OnOk result (space_shown space.new ≡ with_import name.now (space_shown space.old)) }
{
    space.imports.add(name)?;
    Ok(())
}

fn add_fronts<'a>(all: &mut Numbered<'a>, fronts: &[Name<'a>]) -> Result<(), NoMemory>
    ensures { OnOk result (all.new ≡ all.old ++ fronts.now) }
{
    for front in fronts {
        all.add(front.bytes())?;
    }
    Ok(())
}

/// Adds a rule with its wildcards, and with whether its condition has a set of rules.
pub fn add_rule<'a>(
    space: &mut Space<'a>,
    name: &'a [u8],
    number: u32,
    fronts: &[Name<'a>],
    names_rules: bool,
) -> Result<(), NoMemory>
    ensures name { OnOk result (space.new.name ≡ space.old.name) }
    ensures shown { OnOk result (space_shown space.new ≡ with_rule name.now number fronts.now (space_shown space.old)) }
{
    space.rules.add(name)?;
    space.in_order = space.in_order || names_rules;
    if space.in_order {
        space.rules.sort()?;
    }
    space.numbers.push(number)?;
    add_fronts(&mut space.fronts, fronts)?;
    Ok(())
}
