//! The alphabets of `base64` and `base64wide`.

ghost use Rattle.std.specs.Prelude.{◌≡◌, map, option_map};
ghost use Rattle.yr_syntax.specs.Declaration.{bytes_of, modifier_of};
ghost use Rattle.yr_text.specs.Arguments.{alphabet_meant, alphabet_of, alphabet_in, wide_alphabet_of, wide_alphabet_in};

use yr_syntax::Modifier;

/// The alphabet of RFC 4648, section 4.
const USUAL: [u8; 64] = *b"ABCDEFGHIJKLMNOPQRSTUVWXYZabcdefghijklmnopqrstuvwxyz0123456789+/";

fn meant(alphabet: &Option<Vec<u8>>) -> Option<[u8; 64]>
    ensures { result ≡ alphabet_meant (option_map bytes_of alphabet.now) }
{
    match alphabet {
        None => Some(USUAL),
        Some(bytes) => whole(bytes),
    }
}

fn whole(bytes: &[u8]) -> Option<[u8; 64]>
    ensures { result ≡ alphabet_meant (Some bytes.now) }
{
    if bytes.len() != 64 {
        return None;
    }
    let mut all = [0; 64];
    all.copy_from_slice(bytes);
    Some(all)
}

fn alphabet_named(m: &Modifier) -> Option<Option<[u8; 64]>>
    ensures { result ≡ alphabet_of (modifier_of m.now) }
{
    match m {
        Modifier::Base64(alphabet) => Some(meant(alphabet)),
        _ => None,
    }
}

fn wide_alphabet_named(m: &Modifier) -> Option<Option<[u8; 64]>>
    ensures { result ≡ wide_alphabet_of (modifier_of m.now) }
{
    match m {
        Modifier::Base64Wide(alphabet) => Some(meant(alphabet)),
        _ => None,
    }
}

/// The alphabet of the first `base64`.
pub fn first_alphabet(list: &[Modifier]) -> Option<Option<[u8; 64]>>
    ensures { result ≡ alphabet_in (map modifier_of list.now) }
{
    let mut found = None;
    for i in (0..list.len()).rev() {
        found = alphabet_named(&list[i]).or(found);
    }
    found
}

/// The alphabet of the first `base64wide`.
pub fn first_wide_alphabet(list: &[Modifier]) -> Option<Option<[u8; 64]>>
    ensures { result ≡ wide_alphabet_in (map modifier_of list.now) }
{
    let mut found = None;
    for i in (0..list.len()).rev() {
        found = wide_alphabet_named(&list[i]).or(found);
    }
    found
}
