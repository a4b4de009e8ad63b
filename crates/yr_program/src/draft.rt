//! Programs that are being made: each move with the set that it reads.

use std::alloc::Global;
use yr_base::NoMemory;
use yr_pattern::ByteSet;
use yr_rows::Assertion;

/// A move with its set in place of the set's number. `next` and `other` name moves.
#[derive(Clone, Copy)]
pub enum DraftMove {
    Accept,
    Set { next: u32, set: ByteSet },
    Fork { next: u32, other: u32 },
    Test { assertion: Assertion, next: u32 },
}

/// The moves so far.
#[derive(Drop)]
pub struct Draft {
    moves: Vec<DraftMove>,
}

impl Draft {
    ghost use Rattle.std.specs.Prelude.{◌≡◌, [], ◌∷◌, ◌++◌, length, map, OnOk};
    ghost use Rattle.yr_program.specs.Drafts.{act_of, acts_of};
    ghost use Rattle.yr_program.specs.Code.{fail};

    /// No move.
    pub fn new(alloc: Global) -> Draft
        ensures { acts_of result ≡ [] }
    {
        Draft {
            moves: Vec::new(alloc),
        }
    }

    /// How many moves there are.
    pub fn len(&self) -> u64
        ensures { result ≡ length (acts_of self.now) }
    {
        self.moves.len() as u64
    }

    /// The moves in their order.
    pub fn moves(&self) -> &[DraftMove]
        ensures { map act_of result.now ≡ acts_of self.now }
    {
        &self.moves
    }

    /// One more move.
    pub fn put(&mut self, one: DraftMove) -> Result<(), NoMemory>
        ensures { OnOk result (acts_of self.new ≡ acts_of self.old ++ act_of one ∷ []) }
    {
        self.moves.push(one)?;
        Ok(())
    }

    /// A move that nothing passes.
    pub fn put_fail(&mut self, next: u32) -> Result<(), NoMemory>
        ensures { OnOk result (acts_of self.new ≡ acts_of self.old ++ fail (length (acts_of self.old)) next) }
    {
        self.put(DraftMove::Set {
            next,
            set: ByteSet::none(),
        })
    }
}
