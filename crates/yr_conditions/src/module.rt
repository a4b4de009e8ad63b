//! Modules and their rows.

ghost use Rattle.std.specs.Prelude.{◌≡◌, ◌++◌, map, codes, IfSome};
ghost use Rattle.std.specs.Option.{option_map};
ghost use Rattle.std.specs.Str.{bytes_eq};
ghost use Rattle.yr_conditions.specs.Meanings as spec;
ghost use Rattle.yr_values.specs.Names.{module_shown, row_shown};

use yr_values::{Module, ModuleRow};

/// The first module of that name.
pub fn find_module<'a>(modules: &'a [Module], name: &[u8]) -> Option<&'a Module>
    ensures { option_map (λ m. module_shown m.now) result ≡ spec.module_named (map module_shown modules.now) name.now }
{
    for module in modules {
        if name == module.name.as_slice() {
            return Some(module);
        }
    }
    None
}

/// The first row with the path.
pub fn find_row<'a>(rows: &'a [ModuleRow], path: &[u8]) -> Option<&'a ModuleRow>
    ensures entry { option_map (λ r. r.now.entry) result ≡ spec.row_named (map row_shown rows.now) path.now }
    ensures path { IfSome result (λ r. path.now ≡ r.now.path.items) }
{
    for row in rows {
        if path == row.path.as_slice() {
            return Some(row);
        }
    }
    None
}

/// Whether a path is that of a field of an array's entries.
fn is_entry_path(path: &[u8], array: &[u8], word: &[u8]) -> bool
    ensures { result ≡ bytes_eq (array.now ++ codes "[]." ++ word.now) path.now }
{
    match path.strip_prefix(array) {
        None => false,
        Some(behind) => match behind.strip_prefix(b"[].") {
            None => false,
            Some(name) => word == name,
        },
    }
}

/// The first row with the path of a field of an array's entries.
pub fn find_entry_row<'a>(rows: &'a [ModuleRow], array: &[u8], word: &[u8]) -> Option<&'a ModuleRow>
    ensures entry { option_map (λ r. r.now.entry) result ≡ spec.row_named (map row_shown rows.now) (array.now ++ codes "[]." ++ word.now) }
    ensures path { IfSome result (λ r. array.now ++ codes "[]." ++ word.now ≡ r.now.path.items) }
{
    for row in rows {
        if is_entry_path(&row.path, array, word) {
            return Some(row);
        }
    }
    None
}
