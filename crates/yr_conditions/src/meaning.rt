//! What words mean, and what paths lead to.

ghost use Rattle.std.specs.Prelude.{◌≡◌, map, Some, None, IfSome};
ghost use Rattle.std.specs.Option.{option_map};
ghost use Rattle.yr_conditions.specs.Meanings as spec;
ghost use Rattle.yr_conditions.specs.UseViews.{shown, index_of};
ghost use Rattle.yr_values.specs.Names.{module_shown, row_shown};

use crate::module::{find_entry_row, find_row};
use yr_base::Kind;
use yr_values::{Module, ModuleEntry, ModuleRow};

/// Of which entry a field is: the one at which the loop of this number stands, or the one of the written index.
#[derive(Clone, Copy, Debug, PartialEq, Eq)]
pub enum Index {
    None,
    OfLoop(usize),
    Written,
}

/// What a word means, or what a path leads to.
#[derive(Clone, Copy)]
pub enum Meaning<'a> {
    /// A word without a meaning, or a field that its module lacks.
    Unknown,
    /// A path that is not allowed.
    Wrong,
    Module(&'a Module),
    Array {
        module: &'a Module,
        path: &'a [u8],
        count: u16,
    },
    Entry {
        module: &'a Module,
        path: &'a [u8],
        index: Index,
    },
    Function {
        id: u16,
        kind: Kind,
    },
    Constant(i64),
    Field {
        id: u16,
        kind: Kind,
        index: Index,
    },
    Result {
        id: u16,
        kind: Kind,
    },
    /// The variable of the loop of this number.
    Variable(usize),
    External(usize),
    RuleTruth(u32),
}

/// What a row names.
fn row_meaning<'a>(owner: &'a Module, index: Index, found: Option<&'a ModuleRow>) -> Meaning<'a>
    ensures { (path : _) → IfSome found.entry (λ r. path ≡ r.now.path.items)
        → shown result ≡ spec.row_meaning (module_shown owner.now) path (index_of index) (option_map (λ r. r.now.entry) found.entry) }
{
    let Some(row) = found else {
        return Meaning::Unknown;
    };
    match row.entry {
        ModuleEntry::Constant(number) => Meaning::Constant(number),
        ModuleEntry::Field { id, kind } => Meaning::Field { id, kind, index },
        ModuleEntry::Array { count } => Meaning::Array {
            module: owner,
            path: &row.path,
            count,
        },
        ModuleEntry::Call { id, kind } => Meaning::Function { id, kind },
    }
}

/// What a path leads to with a name behind it: a field of a module, or of an entry.
pub fn then_name<'a>(before: Meaning<'a>, word: &[u8]) -> Meaning<'a>
    ensures { shown result ≡ spec.then_name (shown before.entry) word.now }
{
    match before {
        Meaning::Module(module) => {
            row_meaning(module, Index::None, find_row(&module.rows, word))
        }
        Meaning::Entry {
            module,
            path,
            index,
        } => row_meaning(module, index, find_entry_row(&module.rows, path, word)),
        _ => Meaning::Wrong,
    }
}

/// The same with an index behind it: an entry of an array.
pub fn then_index(before: Meaning<'_>) -> Meaning<'_>
    ensures { shown result ≡ spec.then_index (shown before.entry) }
{
    match before {
        Meaning::Array { module, path, .. } => Meaning::Entry {
            module,
            path,
            index: Index::Written,
        },
        _ => Meaning::Wrong,
    }
}

/// The same with so many arguments behind it: a call has two.
pub fn then_call(before: Meaning<'_>, arguments: usize) -> Meaning<'_>
    ensures { shown result ≡ spec.then_call (shown before.entry) arguments }
{
    match before {
        Meaning::Function { id, kind } => {
            if arguments == 2 {
                Meaning::Result { id, kind }
            } else {
                Meaning::Wrong
            }
        }
        _ => Meaning::Wrong,
    }
}
