//! The program as one that keeps the promises of the top call.

use crate::top::yara_main;
use std::alloc::Global;
use yr_base::{Sink, Store};
use yr_outcome::Status;
use yr_outcome::top::TopCall;

/// The program.
pub struct Program;

impl TopCall for Program {
    ghost use Rattle.std.specs.Prelude.{map, string_bytes};
    ghost use Rattle.yr_outcome.specs.Fits.{outside};
    ghost use Rattle.yr_outcome.specs.Clauses.{Answers, ReadFaults, WriteFaults, NoMemories, Completes, Usages, TwiceGiven, ReadCauses, WriteCauses};
    ghost use Rattle.yr_commands.specs.Program.{all_setting};

    ghost setting = { all_setting };

    fn yara_main<F: Store, O: Sink, E: Sink>(
        alloc: Global,
        words: &[String],
        store: &mut F,
        out: &mut O,
        err: &mut E,
    ) -> Status {
        yara_main(alloc, words, store, out, err)
    }
}
