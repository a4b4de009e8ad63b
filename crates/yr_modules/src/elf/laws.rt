//! Laws of the definitions.

ghost use Rattle.std.specs.Prelude.{◌≡◌, ◌≤◌, ℕ, ℤ, List, length, All};
ghost use Rattle.yr_values.specs.Values.{Undefined, Text};
ghost use Rattle.yr_values.specs.Modules.{Suits};
ghost use Rattle.yr_modules.specs.Elf.Layout.{IsElf};
ghost use Rattle.yr_modules.specs.Elf.Fields.{elf_field, elf_kind};
ghost use Rattle.yr_modules.specs.Elf.ModuleRows.{LeadsToField, elf_module};

/// A field's value is of its kind or undefined, and undefined where the file is no ELF file; a text has at most as many
/// bytes as the file.
pub fn fields_have_values_of_their_kinds()
    ensures kinds { (file : List ℕ) (id : ℕ) (index : ℤ) → Suits (elf_kind id) (elf_field file id index) }
    ensures others { (file : List ℕ) (id : ℕ) (index : ℤ) → ¬ IsElf file → elf_field file id index ≡ Undefined }
    ensures texts { (file text : List ℕ) (id : ℕ) (index : ℤ) → elf_field file id index ≡ Text text → length text ≤ length file }
{}

/// What a rule may name leads to a field of that kind, and an array's number of entries is a number.
pub fn rows_lead_to_fields()
    ensures { All LeadsToField elf_module.rows }
{}
