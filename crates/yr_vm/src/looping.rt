//! Loops: the first turn, the next one, and the end.

ghost use Rattle.std.specs.Prelude.{◌≡◌, ◌+◌, ◌<◌, ◌≤◌, ◌^◌, ℕ, List, [], ◌∷◌, length, take, drop, reverse, Some};
ghost use Rattle.yr_rows.specs.Nodes.{outputs_of};
ghost use Rattle.yr_values.specs.Values.{Value as PlainValue, shown};
ghost use Rattle.yr_answer.specs.Turns.{range_turns, item_turns, string_turns};
ghost use Rattle.yr_machine.specs.Counts.{NotStuck};
ghost use Rattle.yr_machine.specs.Machine.{begin};
ghost use Rattle.yr_machine.specs.Operations.{quantifier_of};
ghost use Rattle.yr_machine.specs.Roles.{quantity};
ghost use Rattle.yr_vm.specs.Items.{AreItems};
ghost use Rattle.yr_vm.specs.Members.{members_in};
ghost use Rattle.yr_vm.specs.OpenLoops.{begun_shown, loops_shown, presents_shown, IsCounted};
ghost use Rattle.yr_vm.specs.States.{outcome_of, turn_outcome, CanBegin, MayBegin};

use crate::beginning::{Begun, range, strings};
use crate::quantity::{quantifier, quantity};
use crate::state::State;
use crate::turns::Turned;
use yr_base::Value;
use yr_image::QuantifierKind;
use yr_values::Quantifier;

// A loop ends at its end, with a value in place of so many.
#[inline]
fn leave<'a>(state: &mut State<'a>, taken: usize, end: u32, value: Value<'a>)
    requires { length (drop taken state.old.stack) < 4096 }
    ensures place { state.new.place ≡ end }
    ensures stack { state.new.stack ≡ shown value.entry ∷ drop taken state.old.stack }
    ensures loops { state.new.loops ≡ state.old.loops }
{
    state.stack.shorten(taken);
    state.stack.put(0, value);
    state.place = end;
}

// A loop over a range or over strings begins its first turn, or ends at once.
#[inline]
fn begin(
    state: &mut State<'_>,
    quantifier: Option<Quantifier>,
    begun: Begun,
    taken: usize,
    end: u32,
) -> Option<bool>
    requires near { state.old.place + 1 < 2 ^ 32 }
    requires goes { CanBegin quantifier begun (length (presents_shown state.old.loops)) (length (drop taken state.old.stack)) }
    ensures { (lists : List ℕ) → IsCounted lists begun → let below = drop taken state.old.stack in
        outcome_of lists result state.new
        ≡ begin quantifier (begun_shown lists begun) state.old.place end 0 below below (loops_shown lists state.old.loops) }
{
    match (quantifier, begun) {
        (Some(quantifier), Begun::Some(turns)) => {
            state.stack.shorten(taken);
            state.loops.open(state.place, end, quantifier, turns);
            state.place += 1;
        }
        (Some(quantifier), Begun::Nothing) => {
            leave(state, taken, end, Value::Flag(quantifier.meets(0, 0)));
        }
        _ => leave(state, taken, end, Value::Undefined),
    }
    None
}

/// A loop over a range, whose bounds are on top.
#[inline]
pub fn begin_range(state: &mut State<'_>, kind: QuantifierKind, end: u32) -> Option<bool>
    requires near { state.old.place + 1 < 2 ^ 32 }
    requires there { 2 + length (quantity kind) ≤ length state.old.stack }
    requires goes { (v w : PlainValue) → take 2 state.old.stack ≡ w ∷ v ∷ [] →
        MayBegin (quantifier_of kind (take (length (quantity kind)) (drop 2 state.old.stack))) (range_turns v w)
        (length (presents_shown state.old.loops)) (length (drop (2 + length (quantity kind)) state.old.stack)) }
    ensures { (lists : List ℕ) (v w : PlainValue) → take 2 state.old.stack ≡ w ∷ v ∷ [] →
        let below = drop (2 + length (quantity kind)) state.old.stack in
        outcome_of lists result state.new
        ≡ begin (quantifier_of kind (take (length (quantity kind)) (drop 2 state.old.stack))) (range_turns v w)
        state.old.place end 0 below below (loops_shown lists state.old.loops) }
{
    let quantifier = quantifier(&state.stack, 2, kind);
    let (low, high) = state.stack.two();
    let begun = range(low, high);
    begin(state, quantifier, begun, 2 + quantity(kind), end)
}

/// A loop over the strings in list rows.
#[inline]
pub fn begin_strings(
    state: &mut State<'_>,
    lists: &[u8],
    kind: QuantifierKind,
    end: u32,
    first: u64,
    rows: u64,
) -> Option<bool>
    requires near { state.old.place + 1 < 2 ^ 32 }
    requires rows { 0 < rows → first + rows ≤ length (outputs_of lists.now) }
    requires there { length (quantity kind) ≤ length state.old.stack }
    requires goes { MayBegin (quantifier_of kind (take (length (quantity kind)) (drop 0 state.old.stack)))
        (Some (string_turns (members_in (outputs_of lists.now) first rows)))
        (length (presents_shown state.old.loops)) (length (drop (length (quantity kind)) state.old.stack)) }
    ensures { let below = drop (length (quantity kind)) state.old.stack in
        outcome_of (outputs_of lists.now) result state.new
        ≡ begin (quantifier_of kind (take (length (quantity kind)) (drop 0 state.old.stack)))
        (Some (string_turns (members_in (outputs_of lists.now) first rows)))
        state.old.place end 0 below below (loops_shown (outputs_of lists.now) state.old.loops) }
{
    let quantifier = quantifier(&state.stack, 0, kind);
    let begun = strings(lists, first, rows);
    begin(state, quantifier, begun, quantity(kind), end)
}

/// A loop over a list, whose items are on top and stay there.
pub fn begin_list(state: &mut State<'_>, kind: QuantifierKind, end: u32, items: u64) -> Option<bool>
    requires near { state.old.place + 1 < 2 ^ 32 }
    requires some { 1 ≤ items }
    requires most { items ≤ 128 }
    requires there { items + length (quantity kind) ≤ length state.old.stack }
    requires items { AreItems (reverse (take items state.old.stack)) }
    requires goes { MayBegin (quantifier_of kind (take (length (quantity kind)) (drop items state.old.stack)))
        (Some (item_turns (reverse (take items state.old.stack))))
        (length (presents_shown state.old.loops)) (length (drop (items + length (quantity kind)) state.old.stack)) }
    ensures { (lists : List ℕ) → outcome_of lists result state.new
        ≡ begin (quantifier_of kind (take (length (quantity kind)) (drop items state.old.stack)))
        (Some (item_turns (reverse (take items state.old.stack))))
        state.old.place end (items + length (quantity kind)) state.old.stack
        (drop (items + length (quantity kind)) state.old.stack) (loops_shown lists state.old.loops) }
{
    let kept = items as usize + quantity(kind);
    match quantifier(&state.stack, items as usize, kind) {
        Some(quantifier) => {
            let values = state.stack.top(items as usize);
            state
                .loops
                .open_list(state.place, end, quantifier, values, kept as u32);
            state.place += 1;
        }
        None => leave(state, kept, end, Value::Undefined),
    }
    None
}

/// A turn has ended with the flag on top. The next one begins, or the loop ends.
#[inline]
pub fn end_turn(state: &mut State<'_>, lists: &[u8], c: u32) -> Option<bool>
    requires { NotStuck (turn_outcome c state.old.stack (loops_shown (outputs_of lists.now) state.old.loops)) }
    ensures { outcome_of (outputs_of lists.now) result state.new
        ≡ turn_outcome c state.old.stack (loops_shown (outputs_of lists.now) state.old.loops) }
{
    let answer = yr_values::holds(state.stack.one());
    match state.loops.turn(lists, answer) {
        Turned::Again { place } => {
            state.stack.shorten(1);
            state.place = place;
        }
        Turned::Over { end, kept, answer } => {
            state.stack.shorten(kept as usize + 1);
            state.stack.put(0, Value::Flag(answer));
            state.place = end;
        }
    }
    None
}
