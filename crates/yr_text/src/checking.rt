//! The check of the modifiers of a string.

ghost use Rattle.std.specs.Prelude.{◌≡◌, map, IfOk};
ghost use Rattle.yr_syntax.specs.Declaration.{modifier_of};
ghost use Rattle.yr_text.specs.Names.{stands, stands_some};
ghost use Rattle.yr_text.specs.Arguments.{is_wrong, right_one};
ghost use Rattle.yr_text.specs.Checked.{foreign_names, has_excluded, said_by, checked, Agree};

use crate::alphabet::{first_alphabet, first_wide_alphabet};
use crate::fault::ModifierFault;
use crate::keys::first_keys;
use crate::modifiers::Modifiers;
use crate::name::{NAMES, Name, count, has_some, repeats_some};
use yr_syntax::{Modifier, StringKind};

/// The modifiers of a string as they stand, or their first fault.
pub fn check_modifiers(list: &[Modifier], kind: StringKind) -> Result<Modifiers, ModifierFault>
    ensures answer { result ≡ checked (map modifier_of list.now) kind }
    ensures agree { IfOk result Agree }
{
    first_fault_or_said(list, kind)
}

fn first_fault_or_said(list: &[Modifier], kind: StringKind) -> Result<Modifiers, ModifierFault>
    ensures { result ≡ checked (map modifier_of list.now) kind }
{
    if repeats_some(list, &NAMES) {
        Err(ModifierFault::Repeated)
    } else if has_foreign(list, kind) {
        Err(ModifierFault::WrongKind)
    } else if excludes(list) {
        Err(ModifierFault::Excluded)
    } else if is_amiss(&first_keys(list)) {
        Err(ModifierFault::BadRange)
    } else if is_amiss(&first_alphabet(list)) || is_amiss(&first_wide_alphabet(list)) {
        Err(ModifierFault::BadAlphabet)
    } else {
        Ok(say(list))
    }
}

fn has_foreign(list: &[Modifier], kind: StringKind) -> bool
    ensures { result ≡ stands_some (foreign_names kind) (map modifier_of list.now) }
{
    match kind {
        StringKind::Text => false,
        StringKind::Hex => has_some(
            list,
            &[
                Name::NoCase,
                Name::Wide,
                Name::Ascii,
                Name::FullWord,
                Name::Xor,
                Name::Base64,
                Name::Base64Wide,
            ],
        ),
        StringKind::Regex => has_some(list, &[Name::Xor, Name::Base64, Name::Base64Wide]),
    }
}

fn excludes(list: &[Modifier]) -> bool
    ensures { result ≡ has_excluded (map modifier_of list.now) }
{
    let base64 = has_some(list, &[Name::Base64, Name::Base64Wide]);
    let coded = has_some(list, &[Name::Xor, Name::Base64, Name::Base64Wide]);
    has(list, Name::NoCase) && coded
        || has(list, Name::FullWord) && base64
        || has(list, Name::Xor) && base64
}

fn has(list: &[Modifier], name: Name) -> bool
    ensures { result ≡ stands (map modifier_of list.now) name }
{
    count(list, name) >= 1
}

/// Whether an argument stands there and is wrong.
fn is_amiss<T>(argument: &Option<Option<T>>) -> bool
    ensures { result ≡ is_wrong argument.now }
{
    matches!(argument, Some(None))
}

/// What the modifiers say, where no argument is wrong.
fn say(list: &[Modifier]) -> Modifiers
    ensures { result ≡ said_by (map modifier_of list.now) }
{
    Modifiers {
        nocase: has(list, Name::NoCase),
        wide: has(list, Name::Wide),
        ascii: has(list, Name::Ascii),
        full: has(list, Name::FullWord),
        hidden: has(list, Name::Hidden),
        xor: right(first_keys(list)),
        base64: right(first_alphabet(list)),
        base64wide: right(first_wide_alphabet(list)),
    }
}

/// An argument that stands there and is right.
fn right<T: Copy>(argument: Option<Option<T>>) -> Option<T>
    ensures { result ≡ right_one argument }
{
    match argument {
        Some(found) => found,
        None => None,
    }
}
