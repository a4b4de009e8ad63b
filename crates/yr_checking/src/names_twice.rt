//! Names that stand twice.

ghost use Rattle.std.specs.Prelude.{◌≡◌, IfOk, filter, map};
ghost use Rattle.std.specs.Option.{option_map};
ghost use Rattle.yr_name_tables.specs.Names as names;
ghost use Rattle.yr_syntax.specs.Declaration.{bytes_of, string_of};
ghost use Rattle.yr_checks.specs.Checks as spec;
ghost use Rattle.yr_checking.specs.Findings.{finding_of};
ghost use Rattle.yr_checks.specs.Given.{naming};

use crate::finding::{Finding, Named, found, string_name};
use std::alloc::Global;
use yr_base::NoMemory;
use yr_checks::Code;
use yr_name_tables::{Name, first_twice};
use yr_syntax::StringDecl;

fn tag_names<'a>(alloc: Global, tags: &'a [Vec<u8>]) -> Result<Vec<Name<'a>>, NoMemory>
    ensures { IfOk result (λ all. all.items ≡ map bytes_of tags.now) }
{
    let mut all = Vec::new(alloc);
    for tag in tags {
        all.push(Name::new(tag))?;
    }
    Ok(all)
}

/// The names of strings that have one.
fn named_strings<'a>(alloc: Global, strings: &'a [StringDecl]) -> Result<Vec<Name<'a>>, NoMemory>
    ensures { IfOk result (λ all. all.items ≡ filter spec.is_named (map (λ s. s.name) (map string_of strings.now))) }
{
    let mut all = Vec::new(alloc);
    for string in strings {
        if !string.name.is_empty() {
            all.push(Name::new(&string.name))?;
        }
    }
    Ok(all)
}

/// Of the tags that stand twice, the one whose first place comes first.
pub fn tag_twice<'a>(alloc: Global, tags: &'a [Vec<u8>]) -> Result<Option<Finding<'a>>, NoMemory>
    ensures { IfOk result (λ o. option_map finding_of o ≡ naming Code.DuplicateTag (names.first_twice (map bytes_of tags.now))) }
{
    let all = tag_names(alloc, tags)?;
    match first_twice(alloc, &all)? {
        Some(tag) => Ok(Some(found(Code::DuplicateTag, Named::Word(tag)))),
        None => Ok(None),
    }
}

/// The same of the strings' names, where an empty name is none.
pub fn string_twice<'a>(
    alloc: Global,
    strings: &'a [StringDecl],
) -> Result<Option<Finding<'a>>, NoMemory>
    ensures { IfOk result (λ o. option_map finding_of o
        ≡ naming Code.DuplicateString (option_map names.with_sign (names.first_twice (filter spec.is_named (map (λ s. s.name) (map string_of strings.now)))))) }
{
    let all = named_strings(alloc, strings)?;
    match first_twice(alloc, &all)? {
        Some(name) => Ok(Some(found(Code::DuplicateString, string_name(name)))),
        None => Ok(None),
    }
}
