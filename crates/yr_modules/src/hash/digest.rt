//! Digests, as texts.

ghost use Rattle.std.specs.Prelude.{◌≡◌, ◌*◌, ◌≤◌, length, option_map};
ghost use Rattle.hex.specs.Hex.{encode_lower};
ghost use Rattle.yr_values.specs.Values.{shown, Text};
ghost use Rattle.yr_modules.specs.Hash.Digests.{digest_with, digest_of, digest_value};

use hex::encode_to_slice;
use sha1::Sha1;
use sha2::{Digest, Sha256};
use yr_base::{ShortText, Value};

/// The digests that there are.
#[derive(Clone, Copy)]
pub(crate) enum DigestKind {
    Md5,
    Sha1,
    Sha256,
}

// The hexadecimal digits of a digest of at most 32 bytes.
fn digits_of(digest: &[u8]) -> Value<'static>
    requires { length digest.now ≤ 32 }
    ensures { shown result ≡ Text (encode_lower digest.now) }
{
    let mut bytes = [0u8; 64];
    let count = 2 * digest.len();
    let _ = encode_to_slice(digest, &mut bytes[..count]);
    Value::Short(ShortText {
        bytes,
        len: count as u8,
    })
}

fn md5_of(message: &[u8]) -> [u8; 16]
    ensures { result ≡ digest_of DigestKind.Md5 message.now }
{
    <md5::Md5 as md5::Digest>::digest(message)
}

fn sha256_of(message: &[u8]) -> [u8; 32]
    ensures { result ≡ digest_of DigestKind.Sha256 message.now }
{
    Sha256::digest(message)
}

impl DigestKind {
    /// The digest of the call with an id.
    pub(crate) fn with(id: u16) -> Option<DigestKind>
        ensures { result ≡ digest_with id }
    {
        match id {
            64 => Some(DigestKind::Md5),
            65 => Some(DigestKind::Sha1),
            66 => Some(DigestKind::Sha256),
            _ => None,
        }
    }

    // The digest of a message, as a text.
    fn text_of(self, message: &[u8]) -> Value<'static>
        ensures { shown result ≡ Text (encode_lower (digest_of self message.now)) }
    {
        match self {
            DigestKind::Md5 => digits_of(&md5_of(message)),
            DigestKind::Sha1 => digits_of(&Sha1::digest(message)),
            DigestKind::Sha256 => digits_of(&sha256_of(message)),
        }
    }

    /// The digest of a range, undefined where there is none.
    pub(crate) fn value_of(self, range: Option<&[u8]>) -> Value<'static>
        ensures { shown result ≡ digest_value self (option_map (λ bytes. bytes.now) range.entry) }
    {
        match range {
            Some(message) => self.text_of(message),
            None => Value::Undefined,
        }
    }
}
