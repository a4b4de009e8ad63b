//! Modules with `hash` beside them.

use crate::hash::digest::DigestKind;
use crate::hash::range::range_in;
use yr_base::Value;
use yr_values::Modules;

/// The values of other modules, and the digests of ranges of a file, which are made when they are asked for.
#[derive(Drop)]
pub struct WithHash<'a, M: Modules + Drop> {
    inner: M,
    file: &'a [u8],
}

impl<'a, M: Modules + Drop> WithHash<'a, M> {
    ghost use Rattle.std.specs.Prelude.{◌≡◌};

    /// These modules, with the digests of this file's ranges.
    pub fn over(inner: M, file: &'a [u8]) -> WithHash<'a, M>
        ensures inner { result.inner ≡ inner }
        ensures file { result.file.now ≡ file.now }
    {
        WithHash { inner, file }
    }
}

impl<'a, M: Modules + Drop> Modules for WithHash<'a, M> {
    ghost use Rattle.yr_modules.specs.Hash.Digests.{digest_with, digest_or, kind_or};

    ghost field_of = { λ w id index. M.field_of w.inner id index };

    ghost call_of = { λ w id from size. digest_or (digest_with id) w.file.now from size (M.call_of w.inner id from size) };

    ghost field_kind = { M.field_kind };

    ghost call_kind = { λ id. kind_or (digest_with id) (M.call_kind id) };

    fn field(&self, id: u16, index: i64) -> Value<'_> {
        self.inner.field(id, index)
    }

    fn call(&self, id: u16, from: i64, size: i64) -> Value<'_> {
        match DigestKind::with(id) {
            Some(digest) => digest.value_of(range_in(self.file, from, size)),
            None => self.inner.call(id, from, size),
        }
    }
}
