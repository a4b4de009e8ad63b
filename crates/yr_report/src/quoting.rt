//! Texts between quotes.

ghost use Rattle.std.specs.Prelude.{◌≤◌, codes};
ghost use Rattle.std.specs.List.{flat_map};
ghost use Rattle.yr_answer.specs.Report.{quoted_byte, quoted};
ghost use Rattle.yr_report.specs.Adding.{waiting, Adds};

use crate::adding::add_all;
use crate::line::{Failed, Line};
use crate::number::hexadecimal_digit;
use yr_base::Sink;

fn add_byte<O: Sink>(line: &mut Line, out: &mut O, b: u8) -> Result<(), Failed>
    ensures later { O.faults out.old ≤ O.faults out.new }
    ensures added { Adds (O.written out.old) (O.written out.new) (waiting line.old) (waiting line.new) (quoted_byte b) result (O.faults out.old) (O.faults out.new) }
{
    if b == b'"' || b == b'\\' {
        line.add(out, &[b'\\', b])
    } else if 32 <= b && b <= 126 {
        line.add(out, &[b])
    } else {
        let high = hexadecimal_digit(u64::from(b / 16));
        let low = hexadecimal_digit(u64::from(b % 16));
        line.add(out, &[b'\\', b'x', high, low])
    }
}

fn add_bytes<O: Sink>(line: &mut Line, out: &mut O, text: &[u8]) -> Result<(), Failed>
    ensures later { O.faults out.old ≤ O.faults out.new }
    ensures added { Adds (O.written out.old) (O.written out.new) (waiting line.old) (waiting line.new) (flat_map quoted_byte text.now) result (O.faults out.old) (O.faults out.new) }
{
    for b in text {
        add_byte(line, out, *b)?;
    }
    Ok(())
}

fn add_quote<O: Sink>(line: &mut Line, out: &mut O) -> Result<(), Failed>
    ensures later { O.faults out.old ≤ O.faults out.new }
    ensures added { Adds (O.written out.old) (O.written out.new) (waiting line.old) (waiting line.new) (codes "\"") result (O.faults out.old) (O.faults out.new) }
{
    line.add(out, b"\"")
}

/// Adds a text between quotes.
pub fn add_quoted<O: Sink>(line: &mut Line, out: &mut O, text: &[u8]) -> Result<(), Failed>
    ensures later { O.faults out.old ≤ O.faults out.new }
    ensures added { Adds (O.written out.old) (O.written out.new) (waiting line.old) (waiting line.new) (quoted text.now) result (O.faults out.old) (O.faults out.new) }
{
    add_quote(line, out)?;
    add_bytes(line, out, text)?;
    add_quote(line, out)
}
