//! Modules without values.

use yr_base::Value;
use yr_values::Modules;

/// Each field and each call is undefined.
#[derive(Drop)]
pub struct Nothing;

impl Modules for Nothing {
    ghost use Rattle.std.specs.Prelude.{None};
    ghost use Rattle.yr_values.specs.Values.{Undefined};

    ghost field_of = { λ s id index. Undefined };

    ghost call_of = { λ s id from size. Undefined };

    ghost field_kind = { λ id. None };

    ghost call_kind = { λ id. None };

    fn field(&self, _id: u16, _index: i64) -> Value<'_> {
        Value::Undefined
    }

    fn call(&self, _id: u16, _from: i64, _size: i64) -> Value<'_> {
        Value::Undefined
    }
}
