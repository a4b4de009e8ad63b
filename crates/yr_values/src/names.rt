//! What a program may name of modules.

use yr_base::Kind;

/// What a path of a module leads to.
#[derive(Clone, Copy, Debug, PartialEq, Eq)]
pub enum ModuleEntry {
    Constant(i64),
    Field { id: u16, kind: Kind },
    Array { count: u16 },
    Call { id: u16, kind: Kind },
}

/// A path, written as `type` or `sections[].name`. Of two rows with one path the first counts.
#[derive(Debug, Drop)]
pub struct ModuleRow {
    pub path: Vec<u8>,
    pub entry: ModuleEntry,
}

/// A module with what it names. Of two modules with one name the first counts.
#[derive(Debug, Drop)]
pub struct Module {
    pub name: Vec<u8>,
    pub rows: Vec<ModuleRow>,
}

/// The modules that a rule may import.
#[derive(Debug, Drop)]
pub struct ModuleNames {
    pub modules: Vec<Module>,
}
