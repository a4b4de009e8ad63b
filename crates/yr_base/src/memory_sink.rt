//! Output in memory.

ghost use Rattle.std.specs.Prelude.{◌≡◌, ℕ, ◌+◌, ◌≤◌, ◌↔◌, List, [], ◌∷◌, ◌++◌, length, IfOk, OnOk, OnErr, IsTrue, Some};
ghost use Rattle.yr_base.specs.Memory.{taken_at, put_fails, after_put};
ghost use Rattle.yr_base.specs.Sink.{Puts};

use crate::memory::NoMemory;
use crate::sink::{PutAnswer, Sink};
use std::alloc::Global;
use std::marker::Model;

/// Output in memory, of a fixed room, puts of which can be made to fail.
#[derive(Drop)]
pub struct MemorySink {
    bytes: Vec<u8>,
    room: u32,
    to_fail: Vec<(u64, u32)>,
    puts: u64,
    fault_count: u64,
}

impl Model for MemorySink {
    ghost use Rattle.std.specs.Prelude.{ℕ, ◌≤◌, List, vec_len, vec_capacity};
    ghost use Rattle.yr_base.specs.Memory.{SinkView};

    ghost Value = { SinkView };

    ghost view = { λ s. record {
      written = s.bytes.items;
      room = s.room;
      failing = s.to_fail.items;
      puts = s.puts;
      faults = s.fault_count;
    } };

    ghost invariant = { λ s. (vec_len s.bytes ≤ s.room) × (s.room ≤ vec_capacity s.bytes) };
}

/// How many bytes a put of this number takes, if it is to fail. Of two, the later counts.
fn taken_at(to_fail: &[(u64, u32)], number: u64) -> Option<u32>
    ensures { result ≡ taken_at to_fail.now number }
{
    let mut found = None;
    for entry in to_fail {
        if entry.0 == number {
            found = Some(entry.1);
        }
    }
    found
}

impl MemorySink {
    /// No bytes, and no put that is to fail.
    pub fn new(alloc: Global, room: u32) -> Result<MemorySink, NoMemory>
        ensures { IfOk result (λ s. s ≡ record { written = []; room = room; failing = []; puts = 0; faults = 0 }) }
    {
        match Vec::with_capacity(alloc, room as usize) {
            Ok(bytes) => Ok(MemorySink {
                bytes,
                room,
                to_fail: Vec::new(alloc),
                puts: 0,
                fault_count: 0,
            }),
            Err(_) => Err(NoMemory),
        }
    }

    /// Makes a put fail, by its number from 1 on, after so many bytes.
    pub fn fail_at(&mut self, alloc: Global, call: u64, taken: u32) -> Result<(), NoMemory>
        ensures ok { OnOk result (self.new ≡ record self.old { failing = self.old.failing ++ (call, taken) ∷ [] }) }
        ensures err { OnErr result (self.new ≡ self.old) }
    {
        match self.to_fail.push((call, taken)) {
            Ok(()) => Ok(()),
            Err(_) => Err(NoMemory),
        }
    }

    /// The bytes so far.
    pub fn bytes(&self) -> &[u8]
        ensures { result.now ≡ self.now.written }
    {
        self.bytes.as_slice()
    }
}

impl Sink for MemorySink {
    ghost written = { λ s. Some s.written };

    ghost faults = { λ s. s.faults };

    fn put(&mut self, bytes: &[u8]) -> PutAnswer
        ensures later { self.old.faults ≤ self.new.faults }
        ensures puts { Puts (Some self.old.written) (Some self.new.written) bytes.now result self.old.faults self.new.faults }

        // It fails where it was asked to, or the bytes pass the room, and nowhere else.
        ensures fails { result ≡ PutAnswer.Failed ↔ IsTrue (put_fails self.old (length bytes.now)) }
        ensures after { self.new ≡ after_put self.old bytes.now }
    {
        self.puts = self.puts.saturating_add(1);
        let left = self.room as usize - self.bytes.len();
        let fits = bytes.len().min(left);
        let asked = taken_at(&self.to_fail, self.puts);
        let count = match asked {
            Some(taken) => fits.min(taken as usize),
            None => fits,
        };
        let _ = self.bytes.extend_from_slice(&bytes[..count]);
        if asked.is_some() || left < bytes.len() {
            self.fault_count = self.fault_count.saturating_add(1);
            PutAnswer::Failed
        } else {
            PutAnswer::Done
        }
    }
}
