//! Modules with `pe` beside them.

use crate::pe::field::{Field, value_in};
use crate::pe::header::header_place;
use yr_base::Value;
use yr_values::Modules;

/// The values of other modules, and the fields of a file, which give undefined where it is no PE file. It lends from the file; each field is read
/// when it is asked for.
#[derive(Drop)]
pub struct WithPe<'a, M: Modules + Drop> {
    inner: M,
    file: &'a [u8],
}

impl<'a, M: Modules + Drop> WithPe<'a, M> {
    ghost use Rattle.std.specs.Prelude.{◌≡◌};

    /// These modules, with the fields of this file.
    pub fn over(inner: M, file: &'a [u8]) -> WithPe<'a, M>
        ensures inner { result.inner ≡ inner }
        ensures file { result.file.now ≡ file.now }
    {
        WithPe { inner, file }
    }
}

impl<'a, M: Modules + Drop> Modules for WithPe<'a, M> {
    ghost use Rattle.yr_modules.specs.Pe.Fields.{field_with, field_or, kind_or};

    ghost field_of = { λ w id index. field_or (field_with id) w.file.now index (M.field_of w.inner id index) };

    ghost call_of = { λ w id from size. M.call_of w.inner id from size };

    ghost field_kind = { λ id. kind_or (field_with id) (M.field_kind id) };

    ghost call_kind = { M.call_kind };

    fn field(&self, id: u16, index: i64) -> Value<'_> {
        match Field::with(id) {
            Some(field) => match header_place(self.file) {
                Some(p) => value_in(self.file, p, index, field),
                None => Value::Undefined,
            },
            None => self.inner.field(id, index),
        }
    }

    fn call(&self, id: u16, from: i64, size: i64) -> Value<'_> {
        self.inner.call(id, from, size)
    }
}
