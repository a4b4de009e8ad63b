//! Names with their numbers, and the wildcards of a condition.

ghost use Rattle.std.specs.Prelude.{◌≡◌, IfOk, map};
ghost use Rattle.std.specs.List.{flat_map};
ghost use Rattle.yr_rules.specs.Rules.{external_of};
ghost use Rattle.yr_syntax.specs.Declaration.{string_of};
ghost use Rattle.yr_conditions.specs.UseViews.{use_of};
ghost use Rattle.yr_checks.specs.Checks.{wildcard};
ghost use Rattle.yr_checking.specs.Unused.{front_name};

use std::alloc::Global;
use yr_base::NoMemory;
use yr_conditions::Use;
use yr_name_tables::{Name, Numbered};
use yr_rules::External;
use yr_syntax::StringDecl;

pub fn external_names<'a>(
    alloc: Global,
    externals: &'a [External],
) -> Result<Numbered<'a>, NoMemory>
    ensures { IfOk result (λ all. all ≡ map (λ e. e.name) (map external_of externals.now)) }
{
    let mut all = Numbered::new(alloc);
    for external in externals {
        all.add(external.name.as_bytes())?;
    }
    Ok(all)
}

pub fn string_names<'a>(alloc: Global, strings: &'a [StringDecl]) -> Result<Numbered<'a>, NoMemory>
    ensures { IfOk result (λ all. all ≡ map (λ s. s.name) (map string_of strings.now)) }
{
    let mut all = Numbered::new(alloc);
    for string in strings {
        all.add(&string.name)?;
    }
    Ok(all)
}

/// The fronts of a condition's items of strings with a `*`.
pub fn string_fronts<'a>(alloc: Global, uses: &[Use<'a>]) -> Result<Numbered<'a>, NoMemory>
    ensures { IfOk result (λ all. all ≡ flat_map front_name (map use_of uses.now)) }
{
    let mut all = Numbered::new(alloc);
    for used in uses {
        if let Use::Member(name, wild) = used
            && *wild
        {
            all.add(name)?;
        }
    }
    Ok(all)
}

/// The fronts of a condition's items of rules with a `*`.
pub fn rule_fronts<'a>(alloc: Global, uses: &[Use<'a>]) -> Result<Numbered<'a>, NoMemory>
    ensures { IfOk result (λ all. all ≡ flat_map wildcard (map use_of uses.now)) }
{
    let mut all = Numbered::new(alloc);
    for used in uses {
        if let Use::Earlier(name, wild) = used
            && *wild
        {
            all.add(name)?;
        }
    }
    Ok(all)
}

/// The wildcards for rules in a condition.
pub fn wildcards<'a>(alloc: Global, uses: &[Use<'a>]) -> Result<Vec<Name<'a>>, NoMemory>
    ensures { IfOk result (λ all. all.items ≡ flat_map wildcard (map use_of uses.now)) }
{
    let mut all = Vec::new(alloc);
    for used in uses {
        if let Use::Earlier(name, wild) = used
            && *wild
        {
            all.push(Name::new(name))?;
        }
    }
    Ok(all)
}
