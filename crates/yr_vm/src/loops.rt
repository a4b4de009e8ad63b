//! The open loops, which take no memory.

ghost use Rattle.std.specs.Prelude.{◌≤◌};

use crate::open_loop::{OpenLoop, Turns};
use crate::turns::{Present, Turned};
use yr_base::Value;
use yr_values::Quantifier;

/// The most loops that are open at once.
const MOST_LOOPS: usize = 4;

/// The open loops, the outermost first.
#[derive(Drop)]
pub struct Loops {
    open: [OpenLoop; MOST_LOOPS],
    len: usize,
    ghost few: { len ≤ 4 },
}

impl Loops {
    ghost use Rattle.std.specs.Prelude.{◌≡◌, ◌+◌, ◌<◌, ◌≤◌, ◌^◌, ℕ, List, [], ◌∷◌, length, map, Some};
    ghost use Rattle.yr_rows.specs.Nodes.{outputs_of};
    ghost use Rattle.yr_values.specs.Values.{Value as PlainValue, shown};
    ghost use Rattle.yr_vm.specs.Items.{AreItems};
    ghost use Rattle.yr_answer.specs.Turns.{turn_at};
    ghost use Rattle.yr_machine.specs.Machine.{machine, going, begin};
    ghost use Rattle.yr_vm.specs.Turns.{present_shown};
    ghost use Rattle.yr_vm.specs.OpenLoops.{loops_shown, presents_shown, turn_on, after_turn, begun_by, IsListedBy};

    /// No open loop.
    pub fn new() -> Loops
        ensures { result.len ≡ 0 }
    {
        Loops {
            open: [OpenLoop::blank(); MOST_LOOPS],
            len: 0,
        }
    }

    /// No open loop any more.
    #[inline]
    pub fn clear(&mut self)
        ensures { self.new.len ≡ 0 }
    {
        self.len = 0;
    }

    /// The present turn of loop c.
    #[inline]
    pub fn present(&self, c: u32) -> Present
        requires { c < length (presents_shown self.now) }
        ensures { turn_at (presents_shown self.now) c ≡ Some (present_shown result) }
    {
        let open = &self.open[..];
        open[c as usize].present
    }

    /// Opens a loop inside the others.
    #[inline]
    pub fn open(&mut self, place: u32, end: u32, quantifier: Quantifier, turns: Turns)
        requires near { place + 1 < 2 ^ 32 }
        requires few { length (presents_shown self.old) < 4 }
        ensures { (lists : List ℕ) → loops_shown lists self.new ≡ begun_by lists place end quantifier turns ∷ loops_shown lists self.old }
    {
        let open = &mut self.open[..];
        let next = &mut open[self.len];
        next.begin(place, end, quantifier, turns, 0);
        self.len += 1;
    }

    /// Opens a loop over a list inside the others. It keeps so many values on the stack.
    pub fn open_list(
        &mut self,
        place: u32,
        end: u32,
        quantifier: Quantifier,
        values: &[Value<'_>],
        kept: u32,
    )
        requires near { place + 1 < 2 ^ 32 }
        requires some { 1 ≤ length values.now }
        requires most { length values.now ≤ 128 }
        requires items { AreItems (map shown values.now) }
        requires few { length (presents_shown self.old) < 4 }
        ensures { (lists : List ℕ) → IsListedBy place end quantifier (map shown values.now) kept (loops_shown lists self.old) (loops_shown lists self.new) }
    {
        let open = &mut self.open[..];
        let next = &mut open[self.len];
        next.begin_list(place, end, quantifier, values, kept);
        self.len += 1;
    }

    /// A turn of the innermost loop has ended with this answer.
    #[inline]
    pub fn turn(&mut self, lists: &[u8], answer: bool) -> Turned
        requires { 0 < length (presents_shown self.old) }
        ensures { (below : List PlainValue) →
            turn_on answer below (loops_shown (outputs_of lists.now) self.old) ≡ after_turn result below (loops_shown (outputs_of lists.now) self.new) }
    {
        let open = &mut self.open[..];
        let last = &mut open[self.len - 1];
        let turned = last.turn(lists, answer);
        match turned {
            Turned::Again { .. } => turned,
            Turned::Over { .. } => {
                self.len -= 1;
                turned
            }
        }
    }
}
