//! A sink that looks at each put.

ghost use Rattle.std.specs.Prelude.{◌≤◌, None};
ghost use Rattle.yr_base.specs.Sink.{Puts as DoesPut};

use yr_base::{PutAnswer, Sink};

/// How many puts there were, how many of them ended a line, and whether one had bytes behind the end of a line.
#[derive(Drop)]
pub struct Puts {
    pub puts: u32,
    pub lines: u32,
    pub mixed: bool,
}

impl Puts {
    pub fn new() -> Puts {
        Puts {
            puts: 0,
            lines: 0,
            mixed: false,
        }
    }
}

// Where the first line of the bytes ends.
fn line_end(bytes: &[u8]) -> Option<usize> {
    bytes.iter().position(|b| *b == b'\n')
}

impl Sink for Puts {
    ghost written = { λ s. None };

    ghost faults = { λ s. 0 };

    fn put(&mut self, bytes: &[u8]) -> PutAnswer {
        self.puts = self.puts.saturating_add(1);
        if let Some(end) = line_end(bytes) {
            self.lines = self.lines.saturating_add(1);
            if end.saturating_add(1) != bytes.len() {
                self.mixed = true;
            }
        }
        PutAnswer::Done
    }
}
