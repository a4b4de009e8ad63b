//! Literal sides.

ghost use Rattle.std.specs.Prelude.{◌≡◌, ◌≤◌, ◌↔◌, length, true, IsTrue};
ghost use Rattle.yr_machine.specs.ImageMatches.{IsReadAs, StandsAt};

use crate::lending::part;
use yr_lanes::{same_fold, same_xor};

/// Whether the bytes stand in the file from a place on, by exclusive or with the key, or in either letter case.
pub fn stands(file: &[u8], at: usize, bytes: &[u8], key: u8, fold: bool) -> bool
    requires place { at ≤ length file.now }
    requires plain { fold ≡ true → key ≡ 0 }
    ensures { IsTrue result ↔ StandsAt (IsReadAs key fold) file.now at bytes.now }
{
    if file.len() - at < bytes.len() {
        return false;
    }
    let there = part(file, at, bytes.len());
    if fold {
        return same_fold(there, bytes);
    }
    same_xor(there, bytes, key)
}
