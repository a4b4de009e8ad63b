//! What a rule may name of the module.

ghost use Rattle.std.specs.Prelude.{◌≡◌, [], ◌∷◌, IfOk};
ghost use Rattle.yr_values.specs.Names.{names_shown};
ghost use Rattle.yr_modules.specs.Hash.ModuleRows.{hash_module};

use crate::listing::{push_row, text};
use std::alloc::Global;
use yr_base::{Kind, NoMemory};
use yr_values::{Module, ModuleEntry, ModuleNames};

// The call with an id.
fn call(id: u16) -> ModuleEntry
    ensures { result ≡ ModuleEntry.Call id Kind.Text }
{
    let kind = Kind::Text;
    ModuleEntry::Call { id, kind }
}

/// The module `hash` with its calls.
pub fn hash_names(alloc: Global) -> Result<ModuleNames, NoMemory>
    ensures names { IfOk result (λ names. names_shown names ≡ hash_module ∷ []) }
{
    let mut rows = Vec::new(alloc);
    push_row(alloc, &mut rows, "md5", call(64))?;
    push_row(alloc, &mut rows, "sha1", call(65))?;
    push_row(alloc, &mut rows, "sha256", call(66))?;
    let name = text(alloc, "hash")?;
    let mut modules = Vec::new(alloc);
    modules.push(Module { name, rows })?;
    Ok(ModuleNames { modules })
}
