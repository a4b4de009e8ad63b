//! The lines of matches.

ghost use Rattle.std.specs.Prelude.{◌≡◌, ◌≤◌, [], IfOk};
ghost use Rattle.std.specs.List.{flat_map};
ghost use Rattle.yr_answer.specs.Report.{match_line};
ghost use Rattle.yr_report.specs.Adding.{waiting, Adds};

use crate::adding::add_all;
use crate::line::{Failed, Line};
use crate::number::write_hexadecimal;
use itoa::Buffer;
use yr_base::Sink;

/// Adds the line of a match of the string of this name.
pub fn add_match<O: Sink>(
    line: &mut Line,
    out: &mut O,
    name: &[u8],
    found: (u32, u32),
) -> Result<(), Failed>
    ensures later { O.faults out.old ≤ O.faults out.new }
    ensures added { Adds (O.written out.old) (O.written out.new) (waiting line.old) (waiting line.new) (match_line name.now found) result (O.faults out.old) (O.faults out.new) }
{
    let mut hexadecimal = [0u8; 16];
    let start = write_hexadecimal(u64::from(found.0), &mut hexadecimal);
    let mut decimal = Buffer::new();
    let length = decimal.format(found.1);
    add_all(
        line,
        out,
        &[
            b"0x",
            &hexadecimal[start..],
            b":",
            length.as_bytes(),
            b":$",
            name,
            b"\n",
        ],
    )
}

/// Puts the line of a match, where nothing waits.
fn put_match<O: Sink>(
    line: &mut Line,
    out: &mut O,
    name: &[u8],
    found: (u32, u32),
) -> Result<(), Failed>
    ensures later { O.faults out.old ≤ O.faults out.new }
    ensures added { Adds (O.written out.old) (O.written out.new) (waiting line.old) (waiting line.new) (match_line name.now found) result (O.faults out.old) (O.faults out.new) }
    ensures empty { IfOk result (λ u. waiting line.new ≡ []) }
{
    add_match(line, out, name, found)?;
    line.end(out)
}

/// Puts the lines of all matches of a string, where nothing waits.
pub fn put_matches<O: Sink>(
    line: &mut Line,
    out: &mut O,
    name: &[u8],
    list: &[(u32, u32)],
) -> Result<(), Failed>
    requires { waiting line.old ≡ [] }
    ensures later { O.faults out.old ≤ O.faults out.new }
    ensures added { Adds (O.written out.old) (O.written out.new) (waiting line.old) (waiting line.new) (flat_map (match_line name.now) list.now) result (O.faults out.old) (O.faults out.new) }
    ensures empty { IfOk result (λ u. waiting line.new ≡ []) }
{
    for found in list {
        put_match(line, out, name, *found)?;
    }
    Ok(())
}
