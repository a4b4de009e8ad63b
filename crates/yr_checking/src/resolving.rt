//! The checks on rule files, and the rules with each name replaced by its number.

ghost use Rattle.std.specs.Prelude.{◌≤◌, [], IfErr, IfOk, OnOk, map};
ghost use Rattle.yr_base.specs.Gives.{Gives};
ghost use Rattle.yr_conditions.specs.Fixed.{the_readers};
ghost use Rattle.yr_conditions.specs.Readers.{Readers, Read};
ghost use Rattle.yr_rules.specs.Rules.{external_of, rules_of};
ghost use Rattle.yr_rules.specs.Weight.{weight_limit};
ghost use Rattle.yr_checks.specs.Refusals.{resolved};
ghost use Rattle.yr_checks.specs.Resolving.{AreExternals, AreUnits, HaveRowIds, given_by, refusal_in};
ghost use Rattle.yr_checks.specs.Sources.{items_of, unit_of};
ghost use Rattle.yr_checking.specs.Judged.{Explains};
ghost use Rattle.yr_checking.specs.Placed.{item_at};
ghost use Rattle.yr_checking.specs.Walked.{IsSetting, IsWalked, fault_in, given_in};
ghost use Rattle.yr_values.specs.Names.{names_shown};

use crate::light::WEIGHT_LIMIT;
use crate::refusing::refuse_end;
use crate::walking::{Setting, Walk, first_walk, walk_item};
use crate::{copy_externals, external_names, placed_items};
use std::alloc::Global;
use yr_checks::{ResolveFault, Unit};
use yr_rules::{CheckedRules, External};
use yr_values::ModuleNames;

/// The rules, where all have passed and are light enough.
fn finish_light(
    alloc: Global,
    units: &[Unit],
    names: &ModuleNames,
    externals: &[External],
    walk: Walk<'_>,
) -> Result<CheckedRules, ResolveFault>
    requires units { AreUnits (map unit_of units.now) }
    requires externals { AreExternals (map external_of externals.now) }
    requires walked { IsWalked (given_by the_readers names.now externals.now) (items_of (map unit_of units.now)) walk }
    requires light { walk.weight ≤ weight_limit }
    ensures { Gives rules_of refusal_in result (resolved (given_by the_readers names.now externals.now) (map unit_of units.now)) }
{
    let copies = copy_externals(alloc, externals)?;
    Ok(CheckedRules::from_parts(walk.rules, walk.strings, copies))
}

/// The rules, where all have passed; past the last rule they may be too heavy.
fn finish(
    alloc: Global,
    units: &[Unit],
    names: &ModuleNames,
    externals: &[External],
    walk: Walk<'_>,
) -> Result<CheckedRules, ResolveFault>
    requires units { AreUnits (map unit_of units.now) }
    requires externals { AreExternals (map external_of externals.now) }
    requires walked { IsWalked (given_by the_readers names.now externals.now) (items_of (map unit_of units.now)) walk }
    ensures { Gives rules_of refusal_in result (resolved (given_by the_readers names.now externals.now) (map unit_of units.now)) }
{
    if walk.weight > WEIGHT_LIMIT {
        return Err(ResolveFault::Refused(refuse_end(alloc)));
    }
    finish_light(alloc, units, names, externals, walk)
}

/// Walks over all items.
fn walk_all<'a>(
    alloc: Global,
    setting: &Setting<'_, 'a>,
    walk: &mut Walk<'a>,
) -> Result<(), ResolveFault>
    requires setting { IsSetting setting.now }
    requires walked { IsWalked (given_in setting.now) [] walk.old }
    ensures walked { OnOk result (IsWalked (given_in setting.now) (map item_at setting.now.items.now) walk.new) }
    ensures refused { IfErr result (λ e. Explains e (fault_in (given_in setting.now) (map item_at setting.now.items.now))) }
{
    for place in 0..setting.items.len() {
        walk_item(alloc, setting, place, walk)?;
    }
    Ok(())
}

/// The same for the readers that are held fast.
fn resolve_all(
    alloc: Global,
    units: &[Unit],
    names: &ModuleNames,
    externals: &[External],
) -> Result<CheckedRules, ResolveFault>
    requires units { AreUnits (map unit_of units.now) }
    requires externals { AreExternals (map external_of externals.now) }
    ensures { Gives rules_of refusal_in result (resolved (given_by the_readers names.now externals.now) (map unit_of units.now)) }
{
    let external_names = external_names(alloc, externals)?;
    let items = placed_items(alloc, units)?;
    let setting = Setting {
        names,
        externals,
        external_names: &external_names,
        items: &items,
    };
    let mut walk = first_walk(alloc, externals);
    match walk_all(alloc, &setting, &mut walk) {
        Ok(()) => finish(alloc, units, names, externals, walk),
        Err(fault) => Err(fault),
    }
}

/// The checked rules of all units, or why they are refused: the first rule at which a check fails, and the first check that does.
pub fn resolve(
    alloc: Global,
    units: &[Unit],
    names: &ModuleNames,
    externals: &[External],
) -> Result<CheckedRules, ResolveFault>
    requires units { AreUnits (map unit_of units.now) }
    requires externals { AreExternals (map external_of externals.now) }
    ensures rules { (readers : Readers) → Read readers
        → Gives rules_of refusal_in result (resolved (given_by readers names.now externals.now) (map unit_of units.now)) }
    ensures ids { IfOk result (λ rules. HaveRowIds (names_shown names.now) (rules_of rules)) }
{
    resolve_all(alloc, units, names, externals)
}
