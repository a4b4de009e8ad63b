//! Laws of the definitions.

ghost use Rattle.std.specs.Prelude.{ℕ, List, All};
ghost use Rattle.yr_machine.specs.ImageRun.{FitModules};
ghost use Rattle.yr_modules.specs.Joined.{module_field, module_call, all_rows, IsListed};

/// The table of ids that images are checked by has each row that rules may name, with its kind and its use.
pub fn rows_are_listed()
    ensures { All IsListed all_rows }
{}

/// The values of the modules keep that table: each has its row's kind or is undefined, and texts among them are short.
pub fn values_keep_the_table()
    ensures { (file : List ℕ) → FitModules file (module_field file) (module_call file) }
{}
