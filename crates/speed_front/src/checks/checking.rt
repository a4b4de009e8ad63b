//! The checks on a text.

ghost use Rattle.std.specs.Prelude.{IfOk};
ghost use Rattle.yr_checks.specs.Resolving.{IsUnit};
ghost use Rattle.yr_checks.specs.Sources.{unit_of};

use crate::gathering::gathered;
use std::alloc::Global;
use yr_checking::resolve;
use yr_checks::{CheckedRules, ModuleNames, Unit};
use yr_parser::parse;

/// A rule file in the namespace of those that name none.
#[tactic(auto, using(crate::proofs::UnitLemmas::default_word))]
pub fn declarations(alloc: Global, text: &[u8]) -> anyhow::Result<Unit>
    ensures { IfOk result (λ u. IsUnit (unit_of u)) }
{
    let tokens = gathered(alloc, text)?;
    Ok(Unit {
        namespace: Vec::from_slice(alloc, b"default")?,
        decls: parse(alloc, &tokens)?,
    })
}

/// The checked rules of one file.
#[tactic(auto, using(crate::proofs::UnitLemmas::one_unit, crate::proofs::UnitLemmas::no_externals))]
pub fn checked(alloc: Global, unit: Unit) -> anyhow::Result<CheckedRules>
    requires { IsUnit (unit_of unit) }
{
    let mut units = Vec::new(alloc);
    units.push(unit)?;
    let names = ModuleNames {
        modules: Vec::new(alloc),
    };
    let rules = resolve(alloc, &units, &names, &[])?;
    Ok(rules)
}
