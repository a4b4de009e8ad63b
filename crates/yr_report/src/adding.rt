//! Pieces that are added to a line.

ghost use Rattle.std.specs.Prelude.{◌≤◌};
ghost use Rattle.std.specs.List.{flat_map};
ghost use Rattle.yr_report.specs.Adding.{waiting, Adds};

use crate::line::{Failed, Line};
use yr_base::Sink;

/// Adds pieces one after the other, up to the first put that fails.
pub fn add_all<O: Sink>(line: &mut Line, out: &mut O, pieces: &[&[u8]]) -> Result<(), Failed>
    ensures later { O.faults out.old ≤ O.faults out.new }
    ensures added { Adds (O.written out.old) (O.written out.new) (waiting line.old) (waiting line.new) (flat_map (λ p. p.now) pieces.now) result (O.faults out.old) (O.faults out.new) }
{
    for piece in pieces {
        line.add(out, piece)?;
    }
    Ok(())
}
