//! The top call.

ghost use Rattle.std.specs.Prelude.{map, string_bytes};
ghost use Rattle.yr_outcome.specs.Fits.{outside};
ghost use Rattle.yr_outcome.specs.Clauses.{Answers, ReadFaults, WriteFaults, NoMemories, Completes, Usages, TwiceGiven, ReadCauses, WriteCauses};
ghost use Rattle.yr_commands.specs.Program.{all_setting};

use crate::run;
use std::alloc::Global;
use yr_base::{Sink, Store};
use yr_outcome::{Status, tell};

/// Runs the command that the words spell, over a store and two sinks.
pub fn yara_main<F: Store, O: Sink, E: Sink>(
    alloc: Global,
    words: &[String],
    store: &mut F,
    out: &mut O,
    err: &mut E,
) -> Status
    // A whole answer, or the first refusal.
    ensures answer { Answers all_setting (map string_bytes words.now) result
        (outside (F.files store.old) (F.trace store.old) (F.faults store.old) (O.written out.old) (O.faults out.old)
        (E.written err.old) (E.faults err.old))
        (outside (F.files store.new) (F.trace store.new) (F.faults store.new) (O.written out.new) (O.faults out.new)
        (E.written err.new) (E.faults err.new)) }
    // A file that could not be read.
    ensures read_fault { ReadFaults all_setting (map string_bytes words.now) result
        (outside (F.files store.old) (F.trace store.old) (F.faults store.old) (O.written out.old) (O.faults out.old)
        (E.written err.old) (E.faults err.old))
        (outside (F.files store.new) (F.trace store.new) (F.faults store.new) (O.written out.new) (O.faults out.new)
        (E.written err.new) (E.faults err.new)) }
    // An answer that could not be written.
    ensures write_fault { WriteFaults all_setting (map string_bytes words.now) result
        (outside (F.files store.old) (F.trace store.old) (F.faults store.old) (O.written out.old) (O.faults out.old)
        (E.written err.old) (E.faults err.old))
        (outside (F.files store.new) (F.trace store.new) (F.faults store.new) (O.written out.new) (O.faults out.new)
        (E.written err.new) (E.faults err.new)) }
    // Want of memory.
    ensures no_memory { NoMemories all_setting (map string_bytes words.now) result
        (outside (F.files store.old) (F.trace store.old) (F.faults store.old) (O.written out.old) (O.faults out.old)
        (E.written err.old) (E.faults err.old))
        (outside (F.files store.new) (F.trace store.new) (F.faults store.new) (O.written out.new) (O.faults out.new)
        (E.written err.new) (E.faults err.new)) }
    // A run that can come to its end does, but for faults and want of memory.
    ensures complete { Completes all_setting (map string_bytes words.now) result
        (outside (F.files store.old) (F.trace store.old) (F.faults store.old) (O.written out.old) (O.faults out.old)
        (E.written err.old) (E.faults err.old))
        (outside (F.files store.new) (F.trace store.new) (F.faults store.new) (O.written out.new) (O.faults out.new)
        (E.written err.new) (E.faults err.new)) }
    // These hold of stores and sinks that tell nothing, too.
    ensures causes_usage { Usages all_setting (map string_bytes words.now) result
        (outside (F.files store.old) (F.trace store.old) (F.faults store.old) (O.written out.old) (O.faults out.old)
        (E.written err.old) (E.faults err.old))
        (outside (F.files store.new) (F.trace store.new) (F.faults store.new) (O.written out.new) (O.faults out.new)
        (E.written err.new) (E.faults err.new)) }
    ensures causes_twice { TwiceGiven all_setting (map string_bytes words.now) result
        (outside (F.files store.old) (F.trace store.old) (F.faults store.old) (O.written out.old) (O.faults out.old)
        (E.written err.old) (E.faults err.old))
        (outside (F.files store.new) (F.trace store.new) (F.faults store.new) (O.written out.new) (O.faults out.new)
        (E.written err.new) (E.faults err.new)) }
    ensures causes_read_fault { ReadCauses all_setting (map string_bytes words.now) result
        (outside (F.files store.old) (F.trace store.old) (F.faults store.old) (O.written out.old) (O.faults out.old)
        (E.written err.old) (E.faults err.old))
        (outside (F.files store.new) (F.trace store.new) (F.faults store.new) (O.written out.new) (O.faults out.new)
        (E.written err.new) (E.faults err.new)) }
    ensures causes_write_fault { WriteCauses all_setting (map string_bytes words.now) result
        (outside (F.files store.old) (F.trace store.old) (F.faults store.old) (O.written out.old) (O.faults out.old)
        (E.written err.old) (E.faults err.old))
        (outside (F.files store.new) (F.trace store.new) (F.faults store.new) (O.written out.new) (O.faults out.new)
        (E.written err.new) (E.faults err.new)) }
{
    yr_outcome::laws::promises();
    let answer = run(alloc, words, store, out);
    tell(answer, err)
}
