//! What a rule may name of the module.

ghost use Rattle.std.specs.Prelude.{◌≡◌, ◌++◌, [], ◌∷◌, map, pos, IfOk, OnOk};
ghost use Rattle.yr_values.specs.Names.{row_shown, names_shown};
ghost use Rattle.yr_modules.specs.Elf.ModuleRows.{number, constant, number_rows, array_rows, constant_rows, elf_module};

use std::alloc::Global;
use yr_base::{Kind, NoMemory};
use yr_values::{Module, ModuleEntry, ModuleNames, ModuleRow};

const NUMBERS: [(&str, u16); 18] = [
    ("type", 1),
    ("machine", 2),
    ("entry_point", 3),
    ("number_of_sections", 4),
    ("number_of_segments", 5),
    ("sections[].type", 17),
    ("sections[].flags", 18),
    ("sections[].address", 19),
    ("sections[].offset", 20),
    ("sections[].size", 21),
    ("segments[].type", 32),
    ("segments[].flags", 33),
    ("segments[].offset", 34),
    ("segments[].virtual_address", 35),
    ("segments[].physical_address", 36),
    ("segments[].file_size", 37),
    ("segments[].memory_size", 38),
    ("segments[].alignment", 39),
];

const CONSTANTS: [(&str, u8); 37] = [
    ("ET_NONE", 0),
    ("ET_REL", 1),
    ("ET_EXEC", 2),
    ("ET_DYN", 3),
    ("ET_CORE", 4),
    ("EM_386", 3),
    ("EM_MIPS", 8),
    ("EM_PPC", 20),
    ("EM_PPC64", 21),
    ("EM_ARM", 40),
    ("EM_X86_64", 62),
    ("EM_AARCH64", 183),
    ("SHT_NULL", 0),
    ("SHT_PROGBITS", 1),
    ("SHT_SYMTAB", 2),
    ("SHT_STRTAB", 3),
    ("SHT_RELA", 4),
    ("SHT_HASH", 5),
    ("SHT_DYNAMIC", 6),
    ("SHT_NOTE", 7),
    ("SHT_NOBITS", 8),
    ("SHT_REL", 9),
    ("SHT_SHLIB", 10),
    ("SHT_DYNSYM", 11),
    ("SHF_WRITE", 1),
    ("SHF_ALLOC", 2),
    ("SHF_EXECINSTR", 4),
    ("PT_NULL", 0),
    ("PT_LOAD", 1),
    ("PT_DYNAMIC", 2),
    ("PT_INTERP", 3),
    ("PT_NOTE", 4),
    ("PT_SHLIB", 5),
    ("PT_PHDR", 6),
    ("PF_X", 1),
    ("PF_W", 2),
    ("PF_R", 4),
];

fn text(alloc: Global, bytes: &str) -> Result<Vec<u8>, NoMemory>
    ensures { IfOk result (λ text. text.items ≡ bytes.now) }
{
    let mut text = Vec::new(alloc);
    text.extend_from_slice(bytes.as_bytes())?;
    Ok(text)
}

fn push(
    alloc: Global,
    rows: &mut Vec<ModuleRow>,
    path: &str,
    entry: ModuleEntry,
) -> Result<(), NoMemory>
    ensures { OnOk result (map row_shown rows.new.items ≡ map row_shown rows.old.items ++ record { path = path.now; entry = entry } ∷ []) }
{
    let path = text(alloc, path)?;
    rows.push(ModuleRow { path, entry })?;
    Ok(())
}

fn push_numbers(
    alloc: Global,
    rows: &mut Vec<ModuleRow>,
    numbers: &[(&str, u16)],
) -> Result<(), NoMemory>
    ensures { OnOk result (map row_shown rows.new.items ≡ map row_shown rows.old.items ++ map (λ r. number r.0.now r.1) numbers.now) }
{
    for (path, id) in numbers {
        let kind = Kind::Number;
        push(alloc, rows, path, ModuleEntry::Field { id: *id, kind })?;
    }
    Ok(())
}

fn push_constants(
    alloc: Global,
    rows: &mut Vec<ModuleRow>,
    constants: &[(&str, u8)],
) -> Result<(), NoMemory>
    ensures { OnOk result (map row_shown rows.new.items ≡ map row_shown rows.old.items ++ map (λ r. constant r.0.now r.1) constants.now) }
{
    for (path, value) in constants {
        push(alloc, rows, path, ModuleEntry::Constant(*value as i64))?;
    }
    Ok(())
}

#[tactic(auto, unfolding(crate::specs::Elf::ModuleRows::number_rows))]
fn push_number_rows(alloc: Global, rows: &mut Vec<ModuleRow>) -> Result<(), NoMemory>
    ensures { OnOk result (map row_shown rows.new.items ≡ map row_shown rows.old.items ++ number_rows) }
{
    push_numbers(alloc, rows, &NUMBERS)
}

#[tactic(auto, unfolding(crate::specs::Elf::ModuleRows::constant_rows))]
fn push_constant_rows(alloc: Global, rows: &mut Vec<ModuleRow>) -> Result<(), NoMemory>
    ensures { OnOk result (map row_shown rows.new.items ≡ map row_shown rows.old.items ++ constant_rows) }
{
    push_constants(alloc, rows, &CONSTANTS)
}

fn push_array_rows(alloc: Global, rows: &mut Vec<ModuleRow>) -> Result<(), NoMemory>
    ensures { OnOk result (map row_shown rows.new.items ≡ map row_shown rows.old.items ++ array_rows) }
{
    push(alloc, rows, "sections", ModuleEntry::Array { count: 4 })?;
    push(alloc, rows, "segments", ModuleEntry::Array { count: 5 })?;
    let kind = Kind::Text;
    push(
        alloc,
        rows,
        "sections[].name",
        ModuleEntry::Field { id: 16, kind },
    )?;
    Ok(())
}

/// The module `elf` with its fields, arrays and constants.
pub fn elf_names(alloc: Global) -> Result<ModuleNames, NoMemory>
    ensures names { IfOk result (λ names. names_shown names ≡ elf_module ∷ []) }
{
    let mut rows = Vec::new(alloc);
    push_number_rows(alloc, &mut rows)?;
    push_array_rows(alloc, &mut rows)?;
    push_constant_rows(alloc, &mut rows)?;
    let name = text(alloc, "elf")?;
    let mut modules = Vec::new(alloc);
    modules.push(Module { name, rows })?;
    Ok(ModuleNames { modules })
}
