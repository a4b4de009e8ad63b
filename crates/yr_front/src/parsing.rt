//! The declarations of gathered rule files.

ghost use Rattle.std.specs.Prelude.{◌≡◌, ◌++◌, ◌∷◌, [], All, Ok, IfOk, IfErr, MatchResult, OnOk, map, length};
ghost use Rattle.yr_syntax.specs.Forms.{HaveForms};
ghost use Rattle.yr_syntax.specs.Declaration.{declarations_of};
ghost use Rattle.yr_checks.specs.Sources.{unit_of};
ghost use Rattle.yr_outcome.specs.Front.{Reading, IsReading, unit_tree, unit_trees};
ghost use Rattle.yr_values.specs.Names.{NamedModule};
ghost use Rattle.yr_front.specs.Units.{unit_shown, FitsParseFault, RefusesAs, IsRulesAnswer};
ghost use Rattle.std.specs.Prelude.{List};

use crate::refusing::refuse_parse;
use crate::unit::SourceUnit;
use std::alloc::Global;
use yr_checks::Unit;
use yr_outcome::Answer;
use yr_parser::{ParseFault, parse};

// The declarations of one rule file.
fn parse_unit(alloc: Global, unit: &SourceUnit<'_>) -> Result<Unit, ParseFault>
    ensures parsed { (reading : Reading) → IsReading reading → MatchResult result
        (λ u. reading.parsed unit.now.tokens ≡ Ok (declarations_of u.decls))
        (FitsParseFault (reading.parsed unit.now.tokens)) }
    ensures space { IfOk result (λ u. u.namespace.items ≡ unit.now.space.now) }
    ensures forms { IfOk result (λ u. HaveForms (declarations_of u.decls)) }
{
    yr_parser::one_answer();
    let decls = match parse(alloc, &unit.tokens) {
        Ok(decls) => decls,
        Err(fault) => return Err(fault),
    };
    match Vec::from_slice(alloc, unit.space.as_bytes()) {
        Ok(namespace) => Ok(Unit { namespace, decls }),
        Err(_) => Err(ParseFault::NoMemory),
    }
}

// Adds the declarations of one rule file.
fn parse_next<'a>(
    alloc: Global,
    unit: &SourceUnit<'_>,
    units: &mut Vec<Unit>,
) -> Result<(), Answer<'a>>
    ensures parsed { (reading : Reading) → IsReading reading → (modules : List NamedModule) → MatchResult result
        (λ _. (u : Unit) × (units.new.items ≡ units.old.items ++ u ∷ [])
        × (unit_tree reading modules (unit_shown unit.now) (reading.parsed unit.now.tokens) ≡ Ok (unit_of u)))
        (RefusesAs (unit_tree reading modules (unit_shown unit.now) (reading.parsed unit.now.tokens))) }
    ensures answer { IfErr result IsRulesAnswer }
    ensures spaces { OnOk result (map (λ u. u.namespace.items) units.new.items ≡ map (λ u. u.namespace.items) units.old.items ++ unit.now.space.now ∷ []) }
    ensures forms { OnOk result (All (λ u. HaveForms (declarations_of u.decls)) units.old.items → All (λ u. HaveForms (declarations_of u.decls)) units.new.items) }
{
    let next = match parse_unit(alloc, unit) {
        Ok(next) => next,
        Err(fault) => return Err(refuse_parse(alloc, unit, fault)),
    };
    let Ok(()) = units.push(next) else {
        return Err(Answer::NoMemory);
    };
    Ok(())
}

/// The declarations of all rule files, or the first refusal.
pub fn parse_all<'a>(alloc: Global, units: &[SourceUnit<'_>]) -> Result<Vec<Unit>, Answer<'a>>
    ensures parsed { (reading : Reading) → IsReading reading → (modules : List NamedModule) → MatchResult result
        (λ trees. unit_trees reading modules (map unit_shown units.now) ≡ Ok (map unit_of trees.items))
        (RefusesAs (unit_trees reading modules (map unit_shown units.now))) }
    ensures answer { IfErr result IsRulesAnswer }
    ensures spaces { IfOk result (λ trees. map (λ u. u.namespace.items) trees.items ≡ map (λ u. u.space.now) units.now) }
    ensures forms { IfOk result (λ trees. All (λ u. HaveForms (declarations_of u.decls)) trees.items) }
{
    let mut trees = Vec::new(alloc);
    for unit in units {
        parse_next(alloc, unit, &mut trees)?;
    }
    Ok(trees)
}
