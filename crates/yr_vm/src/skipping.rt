//! The end of a rule, and skips.

ghost use Rattle.std.specs.Prelude.{◌≡◌, ◌+◌, ◌<◌, ◌^◌, ℕ, List, [], ◌∷◌};
ghost use Rattle.yr_machine.specs.Counts.{NotStuck};
ghost use Rattle.yr_vm.specs.OpenLoops.{loops_shown};
ghost use Rattle.yr_base.specs.declared.value.Kind.TheVariants as kind;
ghost use Rattle.yr_machine.specs.declared.block.Want.TheVariants as want;
ghost use Rattle.yr_machine.specs.Machine.{take_values};
ghost use Rattle.yr_vm.specs.States.{IsThere, outcome_of, finish_outcome, skip_to, skip_outcome};

use crate::state::State;
use yr_base::Value;

/// Whether the value that is left holds.
#[inline]
pub fn finish(state: &mut State<'_>) -> Option<bool>
    requires { NotStuck (finish_outcome state.old.stack) }
    ensures outcome { (lists : List ℕ) → outcome_of lists result state.new ≡ finish_outcome state.old.stack }
{
    Some(yr_values::holds(state.stack.one()))
}

/// Leaves at a flag, which stays, where it is true or, as asked, where it is not. Else the flag is taken.
#[inline]
pub fn skip(state: &mut State<'_>, at_true: bool, end: u32) -> Option<bool>
    requires near { state.old.place + 1 < 2 ^ 32 }
    requires flag { IsThere (take_values (want.Of kind.Flag ∷ []) state.old.stack) }
    ensures { (lists : List ℕ) → outcome_of lists result state.new
        ≡ skip_outcome (skip_to at_true end) state.old.place state.old.stack (loops_shown lists state.old.loops) }
{
    if yr_values::holds(state.stack.one()) == at_true {
        state.stack.put(1, Value::Flag(at_true));
        state.place = end;
    } else {
        state.stack.shorten(1);
        state.place += 1;
    }
    None
}
