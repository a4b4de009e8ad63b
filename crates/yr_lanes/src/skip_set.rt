//! Skipping to the next byte of a set.
ghost use Rattle.std.specs.Prelude.{ℕ, ◌≤◌, ◌↔◌, length, Contains, IsTrue};
ghost use Rattle.yr_lanes.specs.NextPlace.{IsNextPlace};

use crate::byte_set::{ByteSet, Few, One, Outside, Rows};
use crate::scan::first_stop;
use std::marker::Model;

/// The least place from `from` on whose byte is in the set, else the length.
pub fn skip_to(set: &[u8], file: &[u8], from: usize) -> usize
    requires { from ≤ length file.now }
    ensures { IsNextPlace (Contains set.now) file.now from result }
{
    SkipSet::new(set).find_from(file, from)
}

/// A set of bytes, made once and used for many calls. A contract sees it as its members in order.
#[derive(Drop)]
pub struct SkipSet {
    members: Members,
}

impl Model for SkipSet {
    ghost use Rattle.std.specs.Prelude.{ℕ, List};
    ghost use Rattle.yr_lanes.specs.Members.{members_of};

    ghost Value = { List ℕ };

    ghost view = { λ s. members_of s.members };
}

impl SkipSet {
    pub fn new(set: &[u8]) -> SkipSet
        ensures { (b : ℕ) → Contains result b ↔ Contains set.now b }
    {
        SkipSet {
            members: Members::new(set),
        }
    }

    /// The least place from `from` on whose byte is in the set, else the length.
    pub fn find_from(&self, file: &[u8], from: usize) -> usize
        requires { from ≤ length file.now }
        ensures { IsNextPlace (Contains self.now) file.now from result }
    {
        self.members.find_from(file, from)
    }
}

#[derive(Drop)]
enum Members {
    Nothing,
    Single(One),
    UpToThree(Few),
    Many(Rows),
}

impl Members {
    ghost use Rattle.std.specs.Prelude.{ℕ, ◌≤◌, ◌↔◌, length, Contains, IsTrue};
    ghost use Rattle.yr_lanes.specs.NextPlace.{IsNextPlace};
    ghost use Rattle.yr_lanes.specs.Members.{in_members};

    fn new(set: &[u8]) -> Members
        ensures { (b : ℕ) → IsTrue (in_members result b) ↔ Contains set.now b }
    {
        match set {
            [] => Members::Nothing,
            [byte] => Members::Single(One(*byte)),
            [first, second] => Members::UpToThree(Few(*first, *second, *second)),
            [first, second, third] => Members::UpToThree(Few(*first, *second, *third)),
            _ => Members::Many(Rows::new(set)),
        }
    }

    #[inline(always)]
    fn find_from(&self, file: &[u8], from: usize) -> usize
        requires { from ≤ length file.now }
        ensures { IsNextPlace (λ b. IsTrue (in_members self.now b)) file.now from result }
    {
        match self {
            Members::Nothing => file.len(),
            Members::Single(set) => next_place(set, file, from),
            Members::UpToThree(set) => next_place(set, file, from),
            Members::Many(set) => next_place(set, file, from),
        }
    }
}

#[inline(always)]
fn next_place<S: ByteSet>(set: &S, file: &[u8], from: usize) -> usize
    requires { from ≤ length file.now }
    ensures { IsNextPlace (λ b. IsTrue (S.holds set.now b)) file.now from result }
{
    first_stop(&Outside { set, file }, from)
}
