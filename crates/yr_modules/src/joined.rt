//! The modules together.

ghost use Rattle.std.specs.Prelude.{◌≡◌, ◌++◌, ℕ, ℤ, map, IfOk, OnOk};
ghost use Rattle.yr_values.specs.Names.{module_shown, names_shown};
ghost use Rattle.yr_modules.specs.Joined.{all_modules, module_field, module_call};

use crate::elf::{Elf, elf_names};
use crate::hash::{WithHash, hash_names};
use crate::pe::{WithPe, pe_names};
use std::alloc::Global;
use yr_base::NoMemory;
use yr_values::{Module, ModuleNames};

/// The values of all modules for a file. It lends from the file; each value is read or made when it is asked for.
pub type FileModules<'a> = WithPe<'a, WithHash<'a, Elf<'a>>>;

// Adds modules.
fn add_all(modules: &mut Vec<Module>, mut names: ModuleNames) -> Result<(), NoMemory>
    ensures { OnOk result (map module_shown modules.new.items ≡ map module_shown modules.old.items ++ names_shown names) }
{
    modules.append(&mut names.modules)?;
    Ok(())
}

/// The modules that rules may import.
pub fn module_names(alloc: Global) -> Result<ModuleNames, NoMemory>
    ensures names { IfOk result (λ names. names_shown names ≡ all_modules) }
{
    let mut modules = Vec::new(alloc);
    add_all(&mut modules, elf_names(alloc)?)?;
    add_all(&mut modules, hash_names(alloc)?)?;
    add_all(&mut modules, pe_names(alloc)?)?;
    Ok(ModuleNames { modules })
}

/// The values of all modules for a file.
pub fn modules_of(file: &[u8]) -> FileModules<'_>
    ensures inner { result.inner.inner ≡ file.now }
    ensures hashed { result.inner.file.now ≡ file.now }
    ensures file { result.file.now ≡ file.now }
{
    WithPe::over(WithHash::over(Elf::read(file), file), file)
}
