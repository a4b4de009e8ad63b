//! Writes of all bytes, over any writer.

ghost use Rattle.std.specs.Prelude.{◌≡◌, ℕ, ◌-◌, ◌<◌, ◌≤◌, List, length, take, IfSome, IfNone, if◌then◌else◌};
ghost use Rattle.std.specs.Option.{is_some};
ghost use Rattle.std.specs.Io.KnownBytes.{Appends, Keeps};
ghost use Rattle.yr_base.specs.Causes.{one_more};
ghost use Rattle.yr_base.specs.Streams.{Sends, faults_of_put};

use crate::fault::{MOST_TRIES, refuse};
use crate::sink::PutAnswer;
use std::io::{ErrorKind, Write};

/// One write, made again while it is interrupted. An error is a fault, and so is a write that takes nothing.
fn write_some<W: Write>(writer: &mut W, bytes: &[u8], faults: &mut u64) -> Option<usize>
    ensures some { IfSome result (λ n. 0 < n) }
    ensures bound { IfSome result (λ n. n ≤ length bytes.now) }
    ensures taken { IfSome result (λ n. Appends (W.contents writer.old) (W.contents writer.new) (take n bytes.now)) }
    ensures kept { IfNone result (Keeps (W.contents writer.old) (W.contents writer.new)) }
    ensures later { faults.old ≤ faults.new }
    ensures counted { faults.new ≡ (if is_some result then faults.old else one_more faults.old) }
{
    for _try in 0..MOST_TRIES {
        match writer.write(bytes) {
            Ok(0) => return refuse(faults),
            Ok(count) => return Some(count),
            Err(e) if e.kind() == ErrorKind::Interrupted => {}
            Err(_) => return refuse(faults),
        }
    }
    refuse(faults)
}

/// Writes all bytes, piece by piece as the writer takes them.
pub fn write_whole<W: Write>(writer: &mut W, bytes: &[u8], faults: &mut u64) -> PutAnswer
    ensures bytes { Sends (W.contents writer.old) (W.contents writer.new) bytes.now result }
    ensures later { faults.old ≤ faults.new }
    ensures counted { faults.new ≡ faults_of_put result faults.old }
{
    let mut rest = bytes;
    while !rest.is_empty() {
        let Some(count) = write_some(writer, rest, faults) else {
            return PutAnswer::Failed;
        };
        rest = &rest[count..];
    }
    PutAnswer::Done
}
