//! The imports and rules of all units, in source order.

ghost use Rattle.std.specs.Prelude.{◌≡◌, ◌++◌, ◌≤◌, IfOk, OnOk, length, map};
ghost use Rattle.yr_syntax.specs.Declaration.{declaration_of};
ghost use Rattle.yr_checking.specs.Placed.{item_at};
ghost use Rattle.yr_checks.specs.Sources.{item_of, items_of, unit_of};

use std::alloc::Global;
use yr_base::NoMemory;
use yr_checks::Unit;
use yr_syntax::Decl;

/// An import or a rule, with the number and the namespace of its unit.
#[derive(Clone, Copy)]
pub struct Placed<'a> {
    pub unit: u32,
    pub namespace: &'a [u8],
    pub decl: &'a Decl,
}

fn push_unit<'a>(all: &mut Vec<Placed<'a>>, number: u32, unit: &'a Unit) -> Result<(), NoMemory>
    ensures { OnOk result (map item_at all.new.items ≡ map item_at all.old.items ++ map (item_of number unit.now.namespace.items) (map declaration_of unit.now.decls.items)) }
{
    for decl in &unit.decls {
        all.push(Placed {
            unit: number,
            namespace: &unit.namespace,
            decl,
        })?;
    }
    Ok(())
}

/// All of them.
pub fn placed_items<'a>(alloc: Global, units: &'a [Unit]) -> Result<Vec<Placed<'a>>, NoMemory>
    requires { length units.now ≤ 16 }
    ensures { IfOk result (λ all. map item_at all.items ≡ items_of (map unit_of units.now)) }
{
    let mut all = Vec::new(alloc);
    for number in 0..units.len() {
        push_unit(&mut all, number as u32, &units[number])?;
    }
    Ok(all)
}
