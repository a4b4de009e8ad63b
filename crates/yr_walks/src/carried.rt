//! Moves with the ends that they carry. They take no memory once they are made.

ghost use Rattle.std.specs.Prelude.{◌≡◌, ℕ, ◌<◌, ◌≤◌, ◌↔◌, [], length, Some, IfOk, slice_get};
ghost use Rattle.yr_walks.specs.Carried.{Adds, AreBelow, Holds};

use std::alloc::{AllocError, Global};
use std::marker::Model;

/// A move, and the end that it carries.
#[derive(Clone, Copy, Debug, PartialEq, Eq)]
pub struct Carried {
    pub by: u32,
    pub end: u32,
}

/// Moves with their ends, each move once, in the order in which they came.
#[derive(Drop)]
pub struct EndList {
    list: Vec<Carried>,
    len: usize,
    ends: Vec<Option<u32>>,
}

impl Model for EndList {
    ghost use Rattle.std.specs.Prelude.{take, length};
    ghost use Rattle.yr_walks.specs.Carried.{Shown, IsKept};

    ghost Value = { Shown };

    ghost view = { λ s. record { items = take s.len s.list.items; room = length s.ends.items } };

    ghost invariant = { λ s. IsKept s.list.items s.len s.ends.items };
}

impl EndList {
    /// An empty list, with room for moves below `room`.
    pub fn new(alloc: Global, room: usize) -> Result<EndList, AllocError>
        ensures items { IfOk result (λ s. s.items ≡ []) }
        ensures room { IfOk result (λ s. s.room ≡ room) }
    {
        Ok(EndList {
            list: vec![in alloc; Carried { by: 0, end: 0 }; room]?,
            len: 0,
            ends: vec![in alloc; None; room]?,
        })
    }

    /// How many members there are: at most n, where each is a move below n.
    pub fn len(&self) -> usize
        ensures len { result ≡ length self.now.items }
        ensures few { (n : ℕ) → AreBelow n self.now.items → result ≤ n }
    {
        self.len
    }

    /// A member by its order.
    #[inline]
    pub fn get(&self, k: usize) -> Carried
        requires { k < length self.now.items }
        ensures { slice_get self.now.items k ≡ Some result }
    {
        self.list[k]
    }

    /// The end that a move carries.
    pub fn end(&self, m: u32) -> Option<u32>
        requires { m < self.now.room }
        ensures { (j : ℕ) → (result ≡ Some j) ↔ Holds self.now.items m j }
    {
        self.ends[m as usize]
    }

    /// One more member, at the end, if the move is none yet.
    #[inline]
    pub fn add(&mut self, m: u32, end: u32)
        requires { m < self.old.room }
        ensures { Adds self.old self.new m end }
    {
        match self.ends[m as usize] {
            Some(_) => (),
            None => {
                self.list[self.len] = Carried { by: m, end };
                self.ends[m as usize] = Some(end);
                self.len += 1;
            }
        }
    }

    /// No member. It costs as many steps as there were members.
    pub fn clear(&mut self)
        ensures items { self.new.items ≡ [] }
        ensures room { self.new.room ≡ self.old.room }
    {
        for k in 0..self.len {
            let m = self.list[k].by as usize;
            self.ends[m] = None;
        }
        self.len = 0;
    }
}
