//! Where the machine stands.

use crate::loops::Loops;
use crate::stack::Stack;

/// The place among a rule's rows, the stack, and the open loops.
#[derive(Drop)]
pub struct State<'a> {
    pub place: u32,
    pub stack: Stack<'a>,
    pub loops: Loops,
}

impl<'a> State<'a> {
    ghost use Rattle.std.specs.Prelude.{◌≡◌, ℕ, List};
    ghost use Rattle.yr_machine.specs.Machine.{start};
    ghost use Rattle.yr_vm.specs.States.{seen};

    /// Room for values and loops, made once.
    pub fn new() -> State<'a> {
        State {
            place: 0,
            stack: Stack::new(),
            loops: Loops::new(),
        }
    }

    /// Before the first row of a rule. It costs nothing for the room.
    #[inline]
    pub fn begin(&mut self)
        ensures { (lists : List ℕ) → seen lists self.new ≡ start }
    {
        self.place = 0;
        self.stack.clear();
        self.loops.clear();
    }
}
