//! A sink that counts.

ghost use Rattle.std.specs.Prelude.{None};

use yr_base::{PutAnswer, Sink};

/// How many puts there were, and how many bytes.
#[derive(Clone, Copy)]
pub struct Counter {
    pub puts: u64,
    pub bytes: u64,
}

impl Sink for Counter {
    ghost written = { λ s. None };

    ghost faults = { λ s. 0 };

    fn put(&mut self, bytes: &[u8]) -> PutAnswer {
        self.puts = self.puts.saturating_add(1);
        self.bytes = self.bytes.saturating_add(bytes.len() as u64);
        PutAnswer::Done
    }
}
