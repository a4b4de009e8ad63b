//! Strings without a byte, and strings whose modifiers have a fault.

ghost use Rattle.std.specs.Prelude.{◌≡◌, map};
ghost use Rattle.std.specs.Option.{option_map};
ghost use Rattle.yr_name_tables.specs.Names.{first};
ghost use Rattle.yr_syntax.specs.Declaration.{body_of, string_of};
ghost use Rattle.yr_checking.specs.Findings.{finding_of, named_of};
ghost use Rattle.yr_checks.specs.Given.{naming};
ghost use Rattle.yr_checks.specs.Patterns as spec;

use crate::finding::{Finding, Named, found, string_name};
use crate::read_string::string_modifiers;
use yr_checks::Code;
use yr_syntax::{StringBody, StringDecl};

fn is_empty_text(body: &StringBody) -> bool
    ensures { result ≡ spec.is_empty_text (body_of body.now) }
{
    match body {
        StringBody::Text(text) => text.is_empty(),
        _ => false,
    }
}

fn empty_string(string: &StringDecl) -> Option<Named<'_>>
    ensures { option_map named_of result ≡ spec.empty_string (string_of string.now) }
{
    if is_empty_text(&string.body) {
        Some(string_name(&string.name))
    } else {
        None
    }
}

/// The first text string without a byte.
pub fn first_empty(strings: &[StringDecl]) -> Option<Finding<'_>>
    ensures { option_map finding_of result ≡ naming Code.EmptyString (first spec.empty_string (map string_of strings.now)) }
{
    for string in strings {
        if let Some(named) = empty_string(string) {
            return Some(found(Code::EmptyString, named));
        }
    }
    None
}

fn bad_modifiers(string: &StringDecl) -> Option<Named<'_>>
    ensures { option_map named_of result ≡ spec.bad_modifiers (string_of string.now) }
{
    if string_modifiers(string).is_none() {
        Some(string_name(&string.name))
    } else {
        None
    }
}

/// The first string whose modifiers have a fault.
pub fn first_bad_modifiers(strings: &[StringDecl]) -> Option<Finding<'_>>
    ensures { option_map finding_of result ≡ naming Code.BadModifiers (first spec.bad_modifiers (map string_of strings.now)) }
{
    for string in strings {
        if let Some(named) = bad_modifiers(string) {
            return Some(found(Code::BadModifiers, named));
        }
    }
    None
}
