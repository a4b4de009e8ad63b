//! Words as numbers: 0 for no byte, and for a word with one more byte 256 times the number before,
//! plus the byte, plus 1. Numbers rise with the length, and then in the order of bytes.

ghost use Rattle.std.specs.Prelude.{◌≡◌, ℕ, ◌+◌, ◌-◌, ◌<◌, ◌≤◌, List, length, take, slice_index};
ghost use Rattle.yr_automaton.specs.Keys.{AllBytes, key as key_of, AreKeys, IsLongestIn};

/// How many bytes the word has.
pub fn depth_of(key: u64) -> u64
    ensures small { result ≤ key }
    ensures is { (r : List ℕ) → AllBytes r → key_of r ≡ key → result ≡ length r }
{
    if key == 0 {
        0
    } else {
        depth_of((key - 1) / 256) + 1
    }
}

// The word without its first byte.
fn without_first(key: u64) -> u64
    ensures less { 0 < key → result < key }
    ensures is { (r : List ℕ) → AllBytes r → key_of r ≡ key → result ≡ key_of (take (length r - 1) r) }
{
    if key <= 256 {
        0
    } else {
        without_first((key - 1) / 256) * 256 + (key - 1) % 256 + 1
    }
}

/// The place of the key of the word's longest proper suffix that has one.
pub fn failure_of(keys: &[u64], key: u64) -> usize
    requires keys { AreKeys keys.now }
    requires some { 0 < key }
    ensures inside { result < length keys.now }
    ensures less { slice_index keys.now result < key }
    ensures is { IsLongestIn keys.now key result }
{
    let mut rest = without_first(key);
    loop {
        match keys.binary_search(&rest) {
            Ok(place) => return place,
            Err(_) => rest = without_first(rest),
        }
    }
}
