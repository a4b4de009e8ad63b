//! Rows that are added to a module.

ghost use Rattle.std.specs.Prelude.{◌≡◌, ◌++◌, [], ◌∷◌, map, IfOk, OnOk};
ghost use Rattle.yr_values.specs.Names.{row_shown};
ghost use Rattle.yr_modules.specs.Listed.{number, constant};

use std::alloc::Global;
use yr_base::{Kind, NoMemory};
use yr_values::{ModuleEntry, ModuleRow};

/// A text's bytes.
pub fn text(alloc: Global, bytes: &str) -> Result<Vec<u8>, NoMemory>
    ensures { IfOk result (λ text. text.items ≡ bytes.now) }
{
    let mut text = Vec::new(alloc);
    text.extend_from_slice(bytes.as_bytes())?;
    Ok(text)
}

/// Adds a row.
pub fn push_row(
    alloc: Global,
    rows: &mut Vec<ModuleRow>,
    path: &str,
    entry: ModuleEntry,
) -> Result<(), NoMemory>
    ensures { OnOk result (map row_shown rows.new.items ≡ map row_shown rows.old.items ++ record { path = path.now; entry = entry } ∷ []) }
{
    let path = text(alloc, path)?;
    rows.push(ModuleRow { path, entry })?;
    Ok(())
}

/// Adds fields that are numbers, each by its path and its id.
pub fn push_numbers(
    alloc: Global,
    rows: &mut Vec<ModuleRow>,
    numbers: &[(&str, u16)],
) -> Result<(), NoMemory>
    ensures { OnOk result (map row_shown rows.new.items ≡ map row_shown rows.old.items ++ map (λ r. number r.0.now r.1) numbers.now) }
{
    for (path, id) in numbers {
        let kind = Kind::Number;
        push_row(alloc, rows, path, ModuleEntry::Field { id: *id, kind })?;
    }
    Ok(())
}

/// Adds constants, each by its path and its value.
pub fn push_constants(
    alloc: Global,
    rows: &mut Vec<ModuleRow>,
    constants: &[(&str, u32)],
) -> Result<(), NoMemory>
    ensures { OnOk result (map row_shown rows.new.items ≡ map row_shown rows.old.items ++ map (λ r. constant r.0.now r.1) constants.now) }
{
    for (path, value) in constants {
        push_row(alloc, rows, path, ModuleEntry::Constant(i64::from(*value)))?;
    }
    Ok(())
}
