//! A line that waits to be put whole.

ghost use Rattle.std.specs.Prelude.{◌≤◌};

use yr_base::{PutAnswer, Sink};

/// The most bytes that wait.
pub const ROOM: usize = 512;

/// A put failed.
#[derive(Clone, Copy, Debug, PartialEq, Eq)]
pub struct Failed;

/// The bytes of a line so far, as long as they fit: a line of at most 512 bytes is put at once.
#[derive(Clone, Copy, Debug)]
pub struct Line {
    bytes: [u8; 512],
    len: usize,
    ghost few: { len ≤ 512 },
}

impl Line {
    ghost use Rattle.std.specs.Prelude.{◌≡◌, ◌+◌, [], ◌++◌, length};
    ghost use Rattle.yr_base.specs.Sink.{Puts};
    ghost use Rattle.yr_report.specs.Adding.{waiting, Adds};

    /// Nothing waits.
    pub fn new() -> Line
        ensures { waiting result ≡ [] }
    {
        Line {
            bytes: [0; 512],
            len: 0,
        }
    }

    fn push(&mut self, piece: &[u8])
        requires { self.old.len + length piece.now ≤ 512 }
        ensures { waiting self.new ≡ waiting self.old ++ piece.now }
    {
        let len = self.len;
        self.bytes[len..len + piece.len()].copy_from_slice(piece);
        self.len = len + piece.len();
    }

    fn put<O: Sink>(&mut self, out: &mut O) -> PutAnswer
        ensures later { O.faults out.old ≤ O.faults out.new }
        ensures puts { Puts (O.written out.old) (O.written out.new) (waiting self.old) result (O.faults out.old) (O.faults out.new) }
        ensures empty { self.new.len ≡ 0 }
    {
        let answer = out.put(&self.bytes[..self.len]);
        self.len = 0;
        answer
    }

    /// Puts what waits, as at the end of a line.
    pub fn end<O: Sink>(&mut self, out: &mut O) -> Result<(), Failed>
        ensures later { O.faults out.old ≤ O.faults out.new }
        ensures added { Adds (O.written out.old) (O.written out.new) (waiting self.old) (waiting self.new) [] result (O.faults out.old) (O.faults out.new) }
        ensures empty { waiting self.new ≡ [] }
    {
        match self.put(out) {
            PutAnswer::Done => Ok(()),
            PutAnswer::Failed => Err(Failed),
        }
    }

    fn add_after<O: Sink>(&mut self, out: &mut O, piece: &[u8]) -> Result<(), Failed>
        requires { self.old.len ≡ 0 }
        ensures later { O.faults out.old ≤ O.faults out.new }
        ensures added { Adds (O.written out.old) (O.written out.new) [] (waiting self.new) piece.now result (O.faults out.old) (O.faults out.new) }
    {
        if piece.len() <= ROOM {
            self.push(piece);
            return Ok(());
        }
        match out.put(piece) {
            PutAnswer::Done => Ok(()),
            PutAnswer::Failed => Err(Failed),
        }
    }

    /// Adds a piece. What waited is put first where it does not fit beside the piece.
    pub fn add<O: Sink>(&mut self, out: &mut O, piece: &[u8]) -> Result<(), Failed>
        ensures later { O.faults out.old ≤ O.faults out.new }
        ensures added { Adds (O.written out.old) (O.written out.new) (waiting self.old) (waiting self.new) piece.now result (O.faults out.old) (O.faults out.new) }
    {
        if piece.len() <= ROOM - self.len {
            self.push(piece);
            return Ok(());
        }
        match self.put(out) {
            PutAnswer::Done => self.add_after(out, piece),
            PutAnswer::Failed => Err(Failed),
        }
    }
}
