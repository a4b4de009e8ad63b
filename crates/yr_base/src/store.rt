//! Files that are read and written by name.

use std::alloc::Global;

/// What a read of a file answers.
#[derive(Clone, Copy, Debug, PartialEq, Eq)]
pub enum ReadAnswer {
    Done,
    Long,
    Failed,
    NoMemory,
}

/// What a write of a file answers.
#[derive(Clone, Copy, Debug, PartialEq, Eq)]
pub enum WriteAnswer {
    Done,
    Failed,
    NoMemory,
}

/// Files by name.
pub trait Store {
    ghost use Rattle.std.specs.Prelude.{◌≡◌, ℕ, ◌+◌, ◌-◌, ◌^◌, ◌≤◌, ◌<◌, List, [], Option};
    ghost use Rattle.yr_base.specs.Store.{Files};
    ghost use Rattle.yr_base.specs.Told.{told_more};
    ghost use Rattle.yr_base.specs.Trace.{Entry};
    ghost use Rattle.yr_base.specs.Store.{read_entries, Reads, write_entries, Writes};

    /// The files, where the store tells them.
    ghost files: { Self → Option Files };

    /// The calls so far, where the store tells them.
    ghost trace: { Self → Option (List Entry) };

    /// How often a call has failed.
    ghost faults: { Self → ℕ };

    /// Reads a file of at most `limit` bytes, or the front of a longer one.
    fn read_file(&mut self, alloc: Global, name: &str, limit: u32, into: &mut Vec<u8>) -> ReadAnswer
        requires empty { into.old.items ≡ [] }
        requires small { limit < 2 ^ 32 - 1 }
        ensures files { files self.new ≡ files self.old }
        ensures trace { trace self.new ≡ told_more (trace self.old) (read_entries name.now result) }
        ensures later { faults self.old ≤ faults self.new }
        ensures reads { Reads (files self.old) name.now limit result into.new.items (faults self.old) (faults self.new) };

    /// Gives a file this content.
    fn write_file(&mut self, alloc: Global, name: &str, bytes: &[u8]) -> WriteAnswer
        ensures trace { trace self.new ≡ told_more (trace self.old) (write_entries name.now result) }
        ensures later { faults self.old ≤ faults self.new }
        ensures writes { Writes (files self.old) (files self.new) name.now bytes.now result (faults self.old) (faults self.new) };
}
