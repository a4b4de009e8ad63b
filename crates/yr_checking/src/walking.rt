//! The checks on all imports and rules, one after another.

ghost use Rattle.std.specs.Prelude.{◌≡◌, ◌<◌, ◌≤◌, ◌+◌, [], IfErr, OnOk, length, map, take, slice_get, Some};
ghost use Rattle.yr_rules.specs.Rules.{external_of};
ghost use Rattle.yr_syntax.specs.Declaration as declaration;
ghost use Rattle.yr_checking.specs.Judged.{Explains};
ghost use Rattle.yr_checking.specs.Placed.{item_at};
ghost use Rattle.yr_checking.specs.Walked.{IsKept, IsSetting, IsWalked, fault_in, given_in};

use crate::Placed;
use crate::at_hand::AtHand;
use crate::judging::{Before, Made, judge};
use crate::refusing::refuse_import;
use crate::space::{Space, add_import, add_rule, open_space};
use std::alloc::Global;
use yr_base::NoMemory;
use yr_checks::ResolveFault;
use yr_conditions::find_module;
use yr_name_tables::Numbered;
use yr_rules::{CheckedRule, CheckedString, External};
use yr_syntax::{Decl, Rule};
use yr_typing::externals_weight;
use yr_values::ModuleNames;

/// What all checks are made with.
#[derive(Drop)]
pub struct Setting<'c, 'a> {
    pub names: &'a ModuleNames,
    pub externals: &'a [External],
    pub external_names: &'c Numbered<'a>,
    pub items: &'c [Placed<'a>],
}

/// What is kept of the imports and rules that passed.
#[derive(Drop)]
pub struct Walk<'a> {
    pub spaces: Vec<Space<'a>>,
    pub rules: Vec<CheckedRule>,
    pub strings: Vec<CheckedString>,
    pub weight: u64,
}

/// Nothing has passed so far.
pub fn first_walk<'a>(alloc: Global, externals: &[External]) -> Walk<'a>
    ensures { (given : _) → given.externals ≡ map external_of externals.now → IsWalked given [] result }
{
    Walk {
        spaces: Vec::new(alloc),
        rules: Vec::new(alloc),
        strings: Vec::new(alloc),
        weight: externals_weight(externals),
    }
}

/// Checks an import, which counts for the rules behind it.
fn walk_import<'a>(
    alloc: Global,
    setting: &Setting<'_, 'a>,
    place: usize,
    name: &'a [u8],
    file: u32,
    line: u32,
    walk: &mut Walk<'a>,
) -> Result<(), ResolveFault>
    requires setting { IsSetting setting.now }
    requires place { place < length setting.now.items.now }
    requires here { (p : _) → slice_get setting.now.items.now place ≡ Some p → declaration.declaration_of p.decl.now ≡ declaration.Import name.now file line }
    requires walked { IsWalked (given_in setting.now) (take place (map item_at setting.now.items.now)) walk.old }
    ensures walked { OnOk result (IsWalked (given_in setting.now) (take (place + 1) (map item_at setting.now.items.now)) walk.new) }
    ensures refused { IfErr result (λ e. Explains e (fault_in (given_in setting.now) (map item_at setting.now.items.now))) }
{
    let placed = setting.items[place];
    if find_module(&setting.names.modules, name).is_none() {
        let refusal = refuse_import(alloc, placed.unit, name, file, line)?;
        return Err(ResolveFault::Refused(refusal));
    }
    let number = open_space(alloc, &mut walk.spaces, placed.namespace)?;
    add_import(&mut walk.spaces[number], name)?;
    Ok(())
}

/// Keeps a rule that passes.
fn keep<'a>(
    walk: &mut Walk<'a>,
    number: usize,
    rule: &'a Rule,
    made: Made<'a>,
) -> Result<(), NoMemory>
    requires within { number < length walk.old.spaces.items }
    requires few { length walk.old.rules.items ≤ 65535 }
    ensures { OnOk result (IsKept walk.old walk.new number rule.now made.entry) }
{
    let Made {
        rule: checked,
        mut strings,
        fronts,
        names_rules,
        weight,
    } = made;
    let space = &mut walk.spaces[number];
    add_rule(
        space,
        &rule.name,
        walk.rules.len() as u32,
        &fronts,
        names_rules,
    )?;
    walk.rules.push(checked)?;
    walk.strings.append(&mut strings)?;
    walk.weight = weight;
    Ok(())
}

/// Checks a rule.
fn walk_rule<'a>(
    alloc: Global,
    setting: &Setting<'_, 'a>,
    place: usize,
    rule: &'a Rule,
    walk: &mut Walk<'a>,
) -> Result<(), ResolveFault>
    requires setting { IsSetting setting.now }
    requires place { place < length setting.now.items.now }
    requires here { (p : _) → slice_get setting.now.items.now place ≡ Some p → declaration.declaration_of p.decl.now ≡ declaration.Rule (declaration.rule_of rule.now) }
    requires walked { IsWalked (given_in setting.now) (take place (map item_at setting.now.items.now)) walk.old }
    ensures walked { OnOk result (IsWalked (given_in setting.now) (take (place + 1) (map item_at setting.now.items.now)) walk.new) }
    ensures refused { IfErr result (λ e. Explains e (fault_in (given_in setting.now) (map item_at setting.now.items.now))) }
{
    let placed = setting.items[place];
    let number = open_space(alloc, &mut walk.spaces, placed.namespace)?;
    let before = Before {
        rules: walk.rules.len(),
        strings: walk.strings.len(),
        weight: walk.weight,
    };
    let at = AtHand {
        names: setting.names,
        externals: setting.externals,
        external_names: setting.external_names,
        items: setting.items,
        place,
        unit: placed.unit,
        namespace: placed.namespace,
        rule,
        space: &walk.spaces[number],
    };
    match judge(alloc, &at, &before) {
        Ok(made) => {
            keep(walk, number, rule, made)?;
            Ok(())
        }
        Err(fault) => Err(fault),
    }
}

/// Checks an import or a rule.
pub fn walk_item<'a>(
    alloc: Global,
    setting: &Setting<'_, 'a>,
    place: usize,
    walk: &mut Walk<'a>,
) -> Result<(), ResolveFault>
    requires setting { IsSetting setting.now }
    requires place { place < length setting.now.items.now }
    requires walked { IsWalked (given_in setting.now) (take place (map item_at setting.now.items.now)) walk.old }
    ensures walked { OnOk result (IsWalked (given_in setting.now) (take (place + 1) (map item_at setting.now.items.now)) walk.new) }
    ensures refused { IfErr result (λ e. Explains e (fault_in (given_in setting.now) (map item_at setting.now.items.now))) }
{
    let placed = setting.items[place];
    match placed.decl {
        Decl::Import { module, file, line } => {
            walk_import(alloc, setting, place, module, *file, *line, walk)
        }
        Decl::Rule(rule) => walk_rule(alloc, setting, place, rule, walk),
    }
}
