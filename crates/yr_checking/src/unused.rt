//! Strings that a condition does not use.

ghost use Rattle.std.specs.Prelude.{◌≡◌, ◌++◌, IfOk, OnOk, map};
ghost use Rattle.std.specs.List.{flat_map, list_any};
ghost use Rattle.std.specs.Option.{option_map};
ghost use Rattle.yr_name_tables.specs.Names.{first};
ghost use Rattle.yr_conditions.specs.UseViews.{use_of};
ghost use Rattle.yr_checks.specs.Checks.{unused_string};
ghost use Rattle.yr_checking.specs.Findings.{named_of};
ghost use Rattle.yr_checking.specs.Unused as spec;

use crate::finding::{Named, string_name};
use crate::tables::string_fronts;
use std::alloc::Global;
use yr_base::NoMemory;
use yr_conditions::Use;
use yr_name_tables::{Numbered, begins, has_front};

/// The names by which a condition uses strings.
#[derive(Drop)]
struct UsedNames<'a> {
    /// Whether it uses all of them.
    everything: bool,
    wholes: Numbered<'a>,
    /// The names with a `*`, without it.
    fronts: Numbered<'a>,
}

fn uses_everything(uses: &[Use<'_>]) -> bool
    ensures { result ≡ list_any spec.is_everything (map use_of uses.now) }
{
    for used in uses {
        if let Use::Everything = used {
            return true;
        }
    }
    false
}

fn add_whole<'a>(used: &Use<'a>, wholes: &mut Numbered<'a>) -> Result<(), NoMemory>
    ensures { OnOk result (wholes.new ≡ wholes.old ++ spec.whole_name (use_of used.now)) }
{
    match used {
        Use::String(_, name) => wholes.add(name)?,
        Use::Member(name, wild) => {
            if !*wild {
                wholes.add(name)?;
            }
        }
        _ => {}
    }
    Ok(())
}

fn used_names<'a>(alloc: Global, uses: &[Use<'a>]) -> Result<UsedNames<'a>, NoMemory>
    ensures everything { IfOk result (λ u. u.everything ≡ list_any spec.is_everything (map use_of uses.now)) }
    ensures wholes { IfOk result (λ u. u.wholes ≡ flat_map spec.whole_name (map use_of uses.now)) }
    ensures fronts { IfOk result (λ u. u.fronts ≡ flat_map spec.front_name (map use_of uses.now)) }
{
    let mut wholes = Numbered::new(alloc);
    for used in uses {
        add_whole(used, &mut wholes)?;
    }
    Ok(UsedNames {
        everything: uses_everything(uses),
        wholes,
        fronts: string_fronts(alloc, uses)?,
    })
}

/// Whether a string of this name is used.
fn is_used(used: &UsedNames<'_>, name: &[u8]) -> bool
    ensures { result ≡ spec.is_used used.now.everything used.now.wholes used.now.fronts name.now }
{
    used.everything || used.wholes.has(name) || has_front(&used.fronts, name)
}

/// The string, where nothing uses it and its name does not begin with `_`.
#[tactic(auto, unfolding(crate::specs::Unused::without_use))]
fn unused_string<'a>(used: &UsedNames<'_>, name: &'a [u8]) -> Option<Named<'a>>
    ensures { option_map named_of result ≡ spec.without_use used.now.everything used.now.wholes used.now.fronts name.now }
{
    if begins(b"_", name) || is_used(used, name) {
        None
    } else {
        Some(string_name(name))
    }
}

/// The first such string.
fn first_without_use<'a>(used: &UsedNames<'_>, strings: &Numbered<'a>) -> Option<Named<'a>>
    ensures { option_map named_of result ≡ first (spec.without_use used.now.everything used.now.wholes used.now.fronts) strings.now }
{
    for number in 0..strings.len() {
        let unused = unused_string(used, strings.name(number));
        if unused.is_some() {
            return unused;
        }
    }
    None
}

/// The first string that nothing uses.
#[tactic(auto, using(crate::proofs::UnusedLemmas::first_alike))]
pub fn first_unused<'a>(
    alloc: Global,
    uses: &[Use<'_>],
    strings: &Numbered<'a>,
) -> Result<Option<Named<'a>>, NoMemory>
    ensures { IfOk result (λ o. option_map named_of o ≡ first (unused_string (map use_of uses.now)) strings.now) }
{
    let used = used_names(alloc, uses)?;
    Ok(first_without_use(&used, strings))
}
