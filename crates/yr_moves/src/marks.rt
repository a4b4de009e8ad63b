//! Sets of moves that take no memory once they are made.

ghost use Rattle.std.specs.Prelude.{◌≡◌, ℕ, ◌<◌, ◌≤◌, [], length, Contains, IsTrue, ◌↔◌, Some, IfOk, slice_get, ◌==◌};
ghost use Rattle.yr_moves.specs.Marked.{Adds};

use std::alloc::{AllocError, Global};
use std::marker::Model;
use yr_base::NoMemory;

/// A set of moves, in the order in which they came.
#[derive(Drop)]
pub struct MoveSet {
    list: Vec<u32>,
    len: usize,
    seen: Vec<bool>,
    /// How many members were cleared, modulo 2^64.
    cleared: u64,
}

impl Model for MoveSet {
    ghost use Rattle.std.specs.Prelude.{take, length};
    ghost use Rattle.yr_moves.specs.Marked.{Shown, IsKept};

    ghost Value = { Shown };

    ghost view = { λ s. record { items = take s.len s.list.items; room = length s.seen.items } };

    ghost invariant = { λ s. IsKept s.list.items s.len s.seen.items };
}

impl MoveSet {
    fn new(alloc: Global, room: usize) -> Result<MoveSet, AllocError>
        ensures items { IfOk result (λ s. s.items ≡ []) }
        ensures room { IfOk result (λ s. s.room ≡ room) }
    {
        Ok(MoveSet {
            list: vec![in alloc; 0; room]?,
            len: 0,
            seen: vec![in alloc; false; room]?,
            cleared: 0,
        })
    }

    /// How many members there are: at most n, where each is below n.
    pub fn len(&self) -> usize
        ensures len { result ≡ length self.now.items }
        ensures few { (n : ℕ) → ((x : ℕ) → Contains self.now.items x → x < n) → result ≤ n }
    {
        self.len
    }

    pub fn is_empty(&self) -> bool
        ensures { result ≡ (length self.now.items == 0) }
    {
        self.len == 0
    }

    /// A member by its order.
    pub fn get(&self, k: usize) -> u32
        requires { k < length self.now.items }
        ensures { slice_get self.now.items k ≡ Some result }
    {
        self.list[k]
    }

    /// One more member, at the end, if it is none yet.
    pub fn add(&mut self, m: u32)
        requires { m < self.old.room }
        ensures { Adds self.old self.new m }
    {
        if !self.seen[m as usize] {
            self.list[self.len] = m;
            self.seen[m as usize] = true;
            self.len += 1;
        }
    }

    /// No member. It costs as many steps as there were members.
    pub fn clear(&mut self)
        ensures items { self.new.items ≡ [] }
        ensures room { self.new.room ≡ self.old.room }
    {
        for k in 0..self.len {
            let m = self.list[k] as usize;
            self.seen[m] = false;
        }
        self.cleared = self.cleared.wrapping_add(self.len as u64);
        self.len = 0;
    }
}

/// What a search keeps: the moves at the present place, and those at the next.
#[derive(Drop)]
pub struct Marks {
    pub(crate) now: MoveSet,
    pub(crate) onwards: MoveSet,
}

impl Model for Marks {
    ghost use Rattle.std.specs.Prelude.{◌≡◌};
    ghost use Rattle.yr_moves.specs.Marked.{Shown};

    ghost Value = { Shown };

    ghost view = { λ s. s.now };

    ghost invariant = { λ s. s.now.room ≡ s.onwards.room };
}

impl Marks {
    /// Marks with room for this many moves.
    pub fn for_moves(alloc: Global, count: u32) -> Result<Marks, NoMemory>
        ensures { IfOk result (λ marks. marks.room ≡ count) }
    {
        let now = MoveSet::new(alloc, count as usize)?;
        let onwards = MoveSet::new(alloc, count as usize)?;
        Ok(Marks { now, onwards })
    }

    /// How many moves the searches with these marks looked at so far, modulo 2^64. It is told without a promise, for who chooses
    /// between two ways to one answer.
    pub fn work(&self) -> u64 {
        self.now.cleared.wrapping_add(self.onwards.cleared)
    }
}
