//! What is put in pieces.

ghost use Rattle.std.specs.Prelude.{◌+◌, ◌≤◌};
ghost use Rattle.std.specs.List.{flat_map};
ghost use Rattle.yr_base.specs.Sink.{Puts};

use crate::sink::{PutAnswer, Sink};

/// Puts pieces one after the other, up to the first put that fails.
pub fn put_all<O: Sink>(out: &mut O, pieces: &[&[u8]]) -> PutAnswer
    ensures later { O.faults out.old ≤ O.faults out.new }
    ensures puts { Puts (O.written out.old) (O.written out.new) (flat_map (λ p. p.now) pieces.now) result
        (O.faults out.old) (O.faults out.new) }
{
    for piece in pieces {
        if let PutAnswer::Failed = out.put(piece) {
            return PutAnswer::Failed;
        }
    }
    PutAnswer::Done
}
