//! The matches of all strings.

ghost use Rattle.std.specs.Prelude.{◌≡◌, ◌<◌, ◌≤◌, ◌^◌, All, IfOk, filter, length, option_map};
ghost use Rattle.std.specs.List.{list_any};
ghost use Rattle.yr_answer.specs.Lookups.{is_at, is_within, list_at, nth_match};
ghost use Rattle.yr_answer.specs.Found.{IsReadable, items_of};

use crate::list::{begins_at, count_within, nth};
use std::alloc::Global;
use std::marker::Model;
use yr_base::NoMemory;

/// The match lists of an image's strings in a file, each in the order of its offsets, and the number of hits.
#[derive(Drop)]
pub struct Matches {
    lists: Vec<Vec<(u32, u32)>>,
    hits: u64,
}

impl Model for Matches {
    ghost use Rattle.std.specs.Prelude.{All};
    ghost use Rattle.yr_answer.specs.Found.{Found, IsReadable, items_of};

    ghost Value = { Found };

    ghost view = { λ s. record { lists = items_of s.lists.items; hits = s.hits } };

    ghost invariant = { λ s. All IsReadable (items_of s.lists.items) };
}

impl Matches {
    /// The matches that these lists are.
    pub fn new(lists: Vec<Vec<(u32, u32)>>, hits: u64) -> Matches
        requires { All IsReadable (items_of lists.items) }
        ensures lists { result.lists ≡ items_of lists.items }
        ensures hits { result.hits ≡ hits }
    {
        Matches { lists, hits }
    }

    /// A copy of lists that were made by hand, as a test wants them.
    pub fn from_lists(
        alloc: Global,
        lists: &[Vec<(u32, u32)>],
        hits: u64,
    ) -> Result<Matches, NoMemory>
        requires { All IsReadable (items_of lists.now) }
        ensures lists { IfOk result (λ matches. matches.lists ≡ items_of lists.now) }
        ensures hits { IfOk result (λ matches. matches.hits ≡ hits) }
    {
        let mut copies = Vec::new(alloc);
        for list in lists {
            copies.push(Vec::from_slice(alloc, list)?)?;
        }
        Ok(Matches::new(copies, hits))
    }

    /// How many strings have a list.
    pub fn strings(&self) -> usize
        ensures { result ≡ length self.now.lists }
    {
        self.lists.len()
    }

    /// The offsets and lengths of a string's matches, in the order of their offsets.
    pub fn list(&self, string: u32) -> &[(u32, u32)]
        requires { string < length self.now.lists }
        ensures list { result.now ≡ list_at self.now.lists string }
        ensures readable { IsReadable result.now }
    {
        &self.lists[string as usize]
    }

    /// Whether a match of a string begins at an offset.
    pub fn at(&self, string: u32, offset: i64) -> bool
        requires { string < length self.now.lists }
        ensures { result ≡ list_any (is_at offset) (list_at self.now.lists string) }
    {
        begins_at(self.list(string), offset)
    }

    /// How many matches a string has.
    pub fn count(&self, string: u32) -> u32
        requires { string < length self.now.lists }
        ensures { result ≡ length (list_at self.now.lists string) }
    {
        self.list(string).len() as u32
    }

    /// How many of a string's matches begin in a range, both ends included.
    pub fn in_range(&self, string: u32, low: i64, high: i64) -> u32
        requires { string < length self.now.lists }
        ensures { result ≡ length (filter (is_within low high) (list_at self.now.lists string)) }
    {
        count_within(self.list(string), low, high) as u32
    }

    /// The offset of match k of a string, numbered from 1.
    pub fn offset(&self, string: u32, k: i64) -> Option<u32>
        requires { string < length self.now.lists }
        ensures { result ≡ option_map (λ m. m.0) (nth_match (list_at self.now.lists string) k) }
    {
        nth(self.list(string), k).map(|m| m.0)
    }

    /// The length of match k of a string, numbered from 1.
    pub fn length(&self, string: u32, k: i64) -> Option<u32>
        requires { string < length self.now.lists }
        ensures { result ≡ option_map (λ m. m.1) (nth_match (list_at self.now.lists string) k) }
    {
        nth(self.list(string), k).map(|m| m.1)
    }

    /// How many hits there were.
    pub fn hits(&self) -> u64
        ensures { result ≡ self.now.hits }
    {
        self.hits
    }
}
