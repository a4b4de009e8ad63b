//! Reads to the end, over any reader.

ghost use Rattle.std.specs.Prelude.{◌≡◌, ℕ, ◌-◌, ◌^◌, ◌<◌, ◌≤◌, List, [], length, take, IfSome, if◌then◌else◌};
ghost use Rattle.std.specs.Option.{is_some};
ghost use Rattle.std.specs.Io.KnownBytes.{Consumes, IsAtEnd};
ghost use Rattle.yr_base.specs.Causes.{one_more};
ghost use Rattle.yr_base.specs.Streams.{Receives, faults_of_read};

use crate::fault::{MOST_TRIES, refuse};
use crate::store::ReadAnswer;
use std::io::{ErrorKind, Read};

/// How many bytes one read asks for at most.
const BLOCK: usize = 16_384;

/// One read, made again while it is interrupted. An error is a fault.
fn read_some<R: Read>(reader: &mut R, buffer: &mut [u8], faults: &mut u64) -> Option<usize>
    ensures bound { IfSome result (λ n. n ≤ length buffer.new) }
    ensures given { IfSome result (λ n. Consumes (R.remaining reader.old) (R.remaining reader.new) (take n buffer.new)) }
    ensures end { IfSome result (λ n. n ≡ 0 → 0 < length buffer.new → IsAtEnd (R.remaining reader.new)) }
    ensures later { faults.old ≤ faults.new }
    ensures counted { faults.new ≡ (if is_some result then faults.old else one_more faults.old) }
{
    for _try in 0..MOST_TRIES {
        match reader.read(buffer) {
            Ok(count) => return Some(count),
            Err(e) if e.kind() == ErrorKind::Interrupted => {}
            Err(_) => return refuse(faults),
        }
    }
    refuse(faults)
}

/// Reads to the end, but for a reader that has more than `limit` bytes.
pub fn read_whole<R: Read>(
    reader: &mut R,
    limit: u32,
    into: &mut Vec<u8>,
    faults: &mut u64,
) -> ReadAnswer
    requires empty { into.old.items ≡ [] }
    requires small { limit < 2 ^ 32 - 1 }
    ensures bytes { Receives (R.remaining reader.old) limit result into.new.items }
    ensures later { faults.old ≤ faults.new }
    ensures counted { faults.new ≡ faults_of_read result faults.old }
{
    let room = limit as usize + 1;
    let mut buffer = [0u8; BLOCK];
    while into.len() < room {
        let most = (room - into.len()).min(BLOCK);
        let Some(count) = read_some(reader, &mut buffer[..most], faults) else {
            into.clear();
            return ReadAnswer::Failed;
        };
        if count == 0 {
            return ReadAnswer::Done;
        }
        if into.extend_from_slice(&buffer[..count]).is_err() {
            into.clear();
            return ReadAnswer::NoMemory;
        }
    }
    ReadAnswer::Long
}
