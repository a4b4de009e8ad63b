use std::test::Fail;
use yr_base::Value;
use yr_modules::hash::{WithHash, hash_names};
use yr_values::Modules;

/// A module that has one field and one call, each a number that tells what was asked.
#[derive(Drop)]
struct Echo;

impl Modules for Echo {
    ghost use Rattle.std.specs.Prelude.{ℤ, Some, ◌+ℤ◌};
    ghost use Rattle.yr_base.specs.declared.value.Kind.TheVariants as kind;
    ghost use Rattle.yr_values.specs.Values.{Number};

    ghost field_of = { λ e id index. Number index };

    ghost call_of = { λ e id from size. Number from };

    ghost field_kind = { λ id. Some kind.Number };

    ghost call_kind = { λ id. Some kind.Number };

    fn field(&self, _id: u16, index: i64) -> Value<'_> {
        Value::Number(index)
    }

    fn call(&self, _id: u16, from: i64, _size: i64) -> Value<'_> {
        Value::Number(from)
    }
}

// Whether the digest of a range of `abc` is this text.
fn is_digest(id: u16, from: i64, size: i64, want: &str) -> bool {
    match WithHash::over(Echo, b"abc").call(id, from, size) {
        Value::Short(text) => match text.bytes.get(..text.len as usize) {
            Some(bytes) => bytes == want.as_bytes(),
            None => false,
        },
        Value::Undefined => want.is_empty(),
        _ => false,
    }
}

fn number(value: Value<'_>) -> Option<i64> {
    match value {
        Value::Number(n) => Some(n),
        _ => None,
    }
}

const MD5: &str = "900150983cd24fb0d6963f7d28e17f72";

const SHA1: &str = "a9993e364706816aba3e25717850c26c9cd0d89d";

const SHA256: &str = "ba7816bf8f01cfea414140de5dae2223b00361a396177a9cb410ff61f20015ad";

const EMPTY_MD5: &str = "d41d8cd98f00b204e9800998ecf8427e";

#[test]
fn gives_the_digests_of_ranges(rt: HostRuntime) -> Result<(), Fail> {
    let rows: [(u16, i64, i64, &str); 12] = [
        (64, 0, 3, MD5),
        (65, 0, 3, SHA1),
        (66, 0, 3, SHA256),
        (64, 3, 0, EMPTY_MD5),
        (64, 0, 0, EMPTY_MD5),
        (64, 1, 1, "92eb5ffee6ae2fec3ad71c777531578f"),
        (64, 1, 3, ""),
        (64, -1, 1, ""),
        (65, 0, -1, ""),
        (64, 4, 0, ""),
        (66, i64::MAX, i64::MAX, ""),
        (66, i64::MIN, 3, ""),
    ];
    for (id, from, size, want) in rows {
        assert_eq!(rt;
            is_digest(id, from, size, want),
            true,
            "{id} of {from} and {size}"
        );
    }
    let joined = WithHash::over(Echo, b"abc");
    assert_eq!(rt; number(joined.call(67, 5, 6)), Some(5));
    assert_eq!(rt; number(joined.field(64, 7)), Some(7));
    let names = hash_names(rt.alloc()).map_err(|_| std::alloc::AllocError)?;
    assert_eq!(rt; names.modules.len(), 1);
    Ok(())
}
