//! What a rule may name of the module.

ghost use Rattle.std.specs.Prelude.{◌≡◌, ◌++◌, [], ◌∷◌, map, IfOk, OnOk};
ghost use Rattle.yr_values.specs.Names.{row_shown, names_shown};
ghost use Rattle.yr_modules.specs.Pe.ModuleRows.{number_rows, array_rows, constant_rows, pe_module};

use crate::listing::{push_constants, push_numbers, push_row, text};
use std::alloc::Global;
use yr_base::{Kind, NoMemory};
use yr_values::{Module, ModuleEntry, ModuleNames, ModuleRow};

const NUMBERS: [(&str, u16); 10] = [
    ("machine", 80),
    ("number_of_sections", 81),
    ("timestamp", 82),
    ("characteristics", 83),
    ("entry_point", 84),
    ("sections[].virtual_address", 97),
    ("sections[].virtual_size", 98),
    ("sections[].raw_data_offset", 99),
    ("sections[].raw_data_size", 100),
    ("sections[].characteristics", 101),
];

const CONSTANTS: [(&str, u32); 9] = [
    ("MACHINE_I386", 0x14c),
    ("MACHINE_ARM", 0x1c0),
    ("MACHINE_AMD64", 0x8664),
    ("EXECUTABLE_IMAGE", 0x2),
    ("DLL", 0x2000),
    ("SECTION_CNT_CODE", 0x20),
    ("SECTION_MEM_EXECUTE", 0x2000_0000),
    ("SECTION_MEM_READ", 0x4000_0000),
    ("SECTION_MEM_WRITE", 0x8000_0000),
];

#[tactic(auto, unfolding(crate::specs::Pe::ModuleRows::number_rows))]
fn push_number_rows(alloc: Global, rows: &mut Vec<ModuleRow>) -> Result<(), NoMemory>
    ensures { OnOk result (map row_shown rows.new.items ≡ map row_shown rows.old.items ++ number_rows) }
{
    push_numbers(alloc, rows, &NUMBERS)
}

#[tactic(auto, unfolding(crate::specs::Pe::ModuleRows::constant_rows))]
fn push_constant_rows(alloc: Global, rows: &mut Vec<ModuleRow>) -> Result<(), NoMemory>
    ensures { OnOk result (map row_shown rows.new.items ≡ map row_shown rows.old.items ++ constant_rows) }
{
    push_constants(alloc, rows, &CONSTANTS)
}

#[tactic(auto, unfolding(crate::specs::Pe::ModuleRows::array_rows))]
fn push_array_rows(alloc: Global, rows: &mut Vec<ModuleRow>) -> Result<(), NoMemory>
    ensures { OnOk result (map row_shown rows.new.items ≡ map row_shown rows.old.items ++ array_rows) }
{
    push_row(alloc, rows, "sections", ModuleEntry::Array { count: 81 })?;
    let kind = Kind::Text;
    push_row(
        alloc,
        rows,
        "sections[].name",
        ModuleEntry::Field { id: 96, kind },
    )
}

/// The module `pe` with its fields, its sections and constants.
pub fn pe_names(alloc: Global) -> Result<ModuleNames, NoMemory>
    ensures names { IfOk result (λ names. names_shown names ≡ pe_module ∷ []) }
{
    let mut rows = Vec::new(alloc);
    push_number_rows(alloc, &mut rows)?;
    push_array_rows(alloc, &mut rows)?;
    push_constant_rows(alloc, &mut rows)?;
    let name = text(alloc, "pe")?;
    let mut modules = Vec::new(alloc);
    modules.push(Module { name, rows })?;
    Ok(ModuleNames { modules })
}
