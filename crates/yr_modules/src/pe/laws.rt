//! Laws of the definitions.

ghost use Rattle.std.specs.Prelude.{◌≡◌, ◌≤◌, ℕ, ℤ, List, length, Some};
ghost use Rattle.yr_values.specs.Values.{Text};
ghost use Rattle.yr_values.specs.Modules.{Suits};
ghost use Rattle.yr_modules.specs.declared.pe.field.Field.{Field};
ghost use Rattle.yr_modules.specs.Pe.Header.{header_place};
ghost use Rattle.yr_modules.specs.Pe.Fields.{kind_in, value_with};

/// The value of a field has its kind or is undefined, and a text among them is no longer than the file.
pub fn fields_have_values_of_their_kinds()
    ensures kind { (file : List ℕ) (index : ℤ) (f : Field) → Suits (Some (kind_in f)) (value_with (header_place file) file index f) }
    ensures short { (file : List ℕ) (index : ℤ) (f : Field) (text : List ℕ)
        → value_with (header_place file) file index f ≡ Text text → length text ≤ length file }
{}
