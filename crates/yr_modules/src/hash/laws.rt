//! Laws of the definitions.

ghost use Rattle.std.specs.Prelude.{◌≡◌, ◌≤◌, ℤ, ℕ, List, length, Some};
ghost use Rattle.yr_base.specs.declared.value.Kind.TheVariants as kind;
ghost use Rattle.yr_values.specs.Values.{Text};
ghost use Rattle.yr_values.specs.Modules.{Suits};
ghost use Rattle.yr_modules.specs.declared.hash.digest.DigestKind.{DigestKind};
ghost use Rattle.yr_modules.specs.Hash.Digests.{digest_value, range_in};

/// A digest is a text of at most 64 bytes, or undefined.
pub fn digests_are_short_texts()
    ensures kind { (digest : DigestKind) (file : List ℕ) (from size : ℤ)
        → Suits (Some kind.Text) (digest_value digest (range_in file from size)) }
    ensures short { (digest : DigestKind) (file : List ℕ) (from size : ℤ) (text : List ℕ)
        → digest_value digest (range_in file from size) ≡ Text text → length text ≤ 64 }
{}
