//! Hashes of names, and the key of an image.

ghost use Rattle.std.specs.Prelude.{◌≡◌, ◌<◌, ◌^◌};
ghost use Rattle.yr_verifier.specs.Hashes.{hash_step, hash_from, slot_of};

use sha2::{Digest, Sha256};
use yr_image::ImageView;

const PRIME: u64 = 4_294_967_291;

fn step(key: u32, h: u32, b: u8) -> u32
    ensures { result ≡ hash_step key h b }
{
    let sum = u64::from(h) * u64::from(key) + u64::from(b) + 1;
    (sum % PRIME) as u32
}

fn hash(key: u32, name: &[u8]) -> u32
    ensures { result ≡ hash_from key 0 name.now }
{
    let mut h = 0;
    for b in name {
        h = step(key, h, *b);
    }
    h
}

/// Where a table is searched from for a name.
pub fn slot_of(key: u32, name: &[u8]) -> usize
    ensures value { result ≡ slot_of key name.now }
    ensures small { result < 131072 }
{
    hash(key, name) as usize % 131_072
}

/// A key that whoever makes an image cannot choose before the names: a number of its bytes' digest.
pub fn key_of(view: &ImageView) -> u32 {
    let mut hasher = Sha256::new();
    hasher.update(view.bytes_of(2));
    hasher.update(view.bytes_of(13));
    let digest: [u8; 32] = hasher.finalize();
    u32::from_le_bytes([digest[0], digest[1], digest[2], digest[3]])
}
