//! The names of modifiers.

ghost use Rattle.std.specs.Prelude.{◌≡◌, map, nat_le};
ghost use Rattle.std.specs.List.{count_by, list_any};
ghost use Rattle.yr_syntax.specs.Declaration.{modifier_of};
ghost use Rattle.yr_text.specs.Names.{name_of, place_in_table, is_named, count_named, stands_some, is_some_repeated};

use yr_syntax::Modifier;

/// The name of a modifier, without its argument.
#[derive(Clone, Copy, Debug, PartialEq, Eq)]
pub enum Name {
    NoCase,
    Wide,
    Ascii,
    FullWord,
    Hidden,
    Xor,
    Base64,
    Base64Wide,
}

/// Every name.
pub const NAMES: [Name; 8] = [
    Name::NoCase,
    Name::Wide,
    Name::Ascii,
    Name::FullWord,
    Name::Hidden,
    Name::Xor,
    Name::Base64,
    Name::Base64Wide,
];

/// Where the name stands in the table of names.
fn place(name: Name) -> u8
    ensures { result ≡ place_in_table name }
{
    match name {
        Name::NoCase => 0,
        Name::Wide => 1,
        Name::Ascii => 2,
        Name::FullWord => 3,
        Name::Hidden => 4,
        Name::Xor => 5,
        Name::Base64 => 6,
        Name::Base64Wide => 7,
    }
}

fn named(m: &Modifier) -> Name
    ensures { result ≡ name_of (modifier_of m.now) }
{
    match m {
        Modifier::NoCase => Name::NoCase,
        Modifier::Wide => Name::Wide,
        Modifier::Ascii => Name::Ascii,
        Modifier::FullWord => Name::FullWord,
        Modifier::Hidden => Name::Hidden,
        Modifier::Xor { .. } => Name::Xor,
        Modifier::Base64(_) => Name::Base64,
        Modifier::Base64Wide(_) => Name::Base64Wide,
    }
}

fn has_name(m: &Modifier, wanted: Name) -> bool
    ensures { result ≡ is_named wanted (modifier_of m.now) }
{
    place(named(m)) == place(wanted)
}

/// How many modifiers have this name.
pub fn count(list: &[Modifier], wanted: Name) -> usize
    ensures { result ≡ count_named wanted (map modifier_of list.now) }
{
    let mut found = 0;
    for i in (0..list.len()).rev() {
        if has_name(&list[i], wanted) {
            found += 1;
        }
    }
    found
}

/// Whether a modifier has one of these names.
pub fn has_some(list: &[Modifier], names: &[Name]) -> bool
    ensures { result ≡ stands_some names.now (map modifier_of list.now) }
{
    names.iter().any(|name| count(list, *name) >= 1)
}

/// Whether two modifiers have one of these names.
pub fn repeats_some(list: &[Modifier], names: &[Name]) -> bool
    ensures { result ≡ is_some_repeated names.now (map modifier_of list.now) }
{
    names.iter().any(|name| count(list, *name) >= 2)
}
