//! The keys of `xor`.

ghost use Rattle.std.specs.Prelude.{◌≡◌, map, option_map};
ghost use Rattle.yr_syntax.specs.Declaration.{bytes_of, modifier_of};
ghost use Rattle.yr_text.specs.Arguments.{byte_of, keys_between, keys_of, keys_in};

use yr_syntax::Modifier;

fn byte(n: i64) -> Option<u8>
    ensures { result ≡ byte_of n }
{
    if n < 0 || n > 255 {
        None
    } else {
        Some(n as u8)
    }
}

fn keys(low: Option<u8>, high: Option<u8>) -> Option<(u8, u8)>
    ensures { result ≡ keys_between low high }
{
    match (low, high) {
        (Some(low), Some(high)) if low <= high => Some((low, high)),
        _ => None,
    }
}

/// The keys that a modifier names.
fn keys_named(m: &Modifier) -> Option<Option<(u8, u8)>>
    ensures { result ≡ keys_of (modifier_of m.now) }
{
    match m {
        Modifier::Xor { low, high } => Some(keys(byte(*low), byte(*high))),
        _ => None,
    }
}

/// The keys of the first `xor`.
pub fn first_keys(list: &[Modifier]) -> Option<Option<(u8, u8)>>
    ensures { result ≡ keys_in (map modifier_of list.now) }
{
    let mut found = None;
    for i in (0..list.len()).rev() {
        found = keys_named(&list[i]).or(found);
    }
    found
}
