//! A place for bytes.

/// What a put answers.
#[derive(Clone, Copy, Debug, PartialEq, Eq)]
pub enum PutAnswer {
    Done,
    Failed,
}

/// A place for bytes.
pub trait Sink {
    ghost use Rattle.std.specs.Prelude.{◌≡◌, ℕ, ◌≤◌, List, Option};
    ghost use Rattle.yr_base.specs.Sink.{Puts};

    /// The bytes so far, where the sink tells them.
    ghost written: { Self → Option (List ℕ) };

    /// How often a put has failed.
    ghost faults: { Self → ℕ };

    /// Appends bytes, or a prefix of them where it fails.
    fn put(&mut self, bytes: &[u8]) -> PutAnswer
        ensures later { faults self.old ≤ faults self.new }
        ensures puts { Puts (written self.old) (written self.new) bytes.now result (faults self.old) (faults self.new) };
}
