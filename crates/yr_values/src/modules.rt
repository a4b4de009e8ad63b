//! Where the values of module fields come from.

use yr_base::Value;

/// The values of modules for one file.
pub trait Modules {
    ghost use Rattle.std.specs.Prelude.{◌≡◌, ℕ, ℤ, Option};
    ghost use Rattle.yr_base.specs.declared.value.Kind.{Kind};
    ghost use Rattle.yr_values.specs.Values.{Value as PlainValue, shown};
    ghost use Rattle.yr_values.specs.Modules.{Suits};

    /// The value of a field, by its id and an index.
    ghost field_of: { Self → ℕ → ℤ → PlainValue };

    /// The value of a call, by its id and its two arguments.
    ghost call_of: { Self → ℕ → ℤ → ℤ → PlainValue };

    /// The kind of the field with an id, where there is one.
    ghost field_kind: { ℕ → Option Kind };

    /// The kind of the call with an id, where there is one.
    ghost call_kind: { ℕ → Option Kind };

    /// The value of a field. One that is no entry's takes no notice of the index.
    fn field(&self, id: u16, index: i64) -> Value<'_>
        ensures value { shown result ≡ field_of self.now id index }
        ensures kind { Suits (field_kind id) (shown result) };

    /// The value of a call with two arguments.
    fn call(&self, id: u16, from: i64, size: i64) -> Value<'_>
        ensures value { shown result ≡ call_of self.now id from size }
        ensures kind { Suits (call_kind id) (shown result) };
}
