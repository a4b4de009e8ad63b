//! A stream of the machine.

ghost use Rattle.std.specs.Prelude.{◌≡◌, None};

use crate::sink::{PutAnswer, Sink};
use crate::writing::write_whole;
use std::io::Write;

/// A writer as a sink.
#[derive(Drop)]
pub struct StreamSink<W: Write + Drop> {
    writer: W,
    fault_count: u64,
}

impl<W: Write + Drop> StreamSink<W> {
    /// A sink that hands on to a writer.
    pub fn new(writer: W) -> StreamSink<W>
        ensures { result.fault_count ≡ 0 }
    {
        StreamSink {
            writer,
            fault_count: 0,
        }
    }
}

impl<W: Write + Drop> Sink for StreamSink<W> {
    ghost written = { λ _. None };

    ghost faults = { λ s. s.fault_count };

    fn put(&mut self, bytes: &[u8]) -> PutAnswer {
        write_whole(&mut self.writer, bytes, &mut self.fault_count)
    }
}
