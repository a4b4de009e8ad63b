//! One instruction.

ghost use Rattle.std.specs.Prelude.{◌≡◌, ◌+◌, ◌<◌, ◌≤◌, ◌^◌, ℕ, Bool, List, Some, true, length};
ghost use Rattle.yr_answer.specs.Truths.{truths_shown};
ghost use Rattle.yr_image.specs.Views.{image_of, shown_bytes};
ghost use Rattle.yr_machine.specs.Budget.{instruction_cost};
ghost use Rattle.yr_machine.specs.Counts.{NotStuck};
ghost use Rattle.yr_machine.specs.ImageRun.{KnowsPrograms};
ghost use Rattle.yr_machine.specs.Machine.{act};
ghost use Rattle.yr_machine.specs.Wellformed.{IsWellformed};
ghost use Rattle.yr_machine.proofs.ShortTexts.{AreShort};
ghost use Rattle.yr_hits.specs.Programs.{HasRoom};
ghost use Rattle.yr_vm.specs.OpenLoops.{presents_shown};
ghost use Rattle.yr_vm.specs.States.{seen, outcome_of};
ghost use Rattle.yr_vm.specs.Taken.{AreAmong, has_short_list};
ghost use Rattle.yr_vm.specs.Worlds.{context_of};

use crate::giving::give;
use crate::looping::{begin_list, begin_range, begin_strings, end_turn};
use crate::programs::test_program;
use crate::skipping::{finish, skip};
use crate::state::State;
use crate::world::World;
use std::sync::ledger::Ledger;
use yr_base::{Steps, Truth};
use yr_image::Instruction;
use yr_moves::Marks;
use yr_values::Modules;

/// Does what an instruction says. At the rule's end, the rule's truth.
pub fn act<'a, M: Modules, L: Ledger>(
    state: &mut State<'a>,
    world: &World<'a, '_, M>,
    truths: &[Truth],
    instruction: Instruction,
    marks: &mut Marks,
    steps: &mut Steps<L>,
) -> Option<bool>
    requires near { state.old.place + 1 < 2 ^ 32 }
    requires wellformed { IsWellformed (shown_bytes world.now.image) }
    requires lists { length world.now.matches.now.lists ≡ length (image_of world.now.image).strings }
    requires externals { length world.now.externals.now ≡ length (image_of world.now.image).externals }
    requires knows { (occurs : ℕ → List ℕ → Bool) × KnowsPrograms (context_of M.field_of M.call_of world.now occurs) }
    requires room { HasRoom (image_of world.now.image) marks.old.room }
    requires among { AreAmong (length world.now.matches.now.lists) (presents_shown state.old.loops) }
    requires short { has_short_list instruction ≡ true }
    requires goes { (occurs : ℕ → List ℕ → Bool) → KnowsPrograms (context_of M.field_of M.call_of world.now occurs) → NotStuck (act (context_of M.field_of M.call_of world.now occurs) (truths_shown truths.now) (Some instruction) (seen (image_of world.now.image).lists state.old)) }
    ensures outcome { (occurs : ℕ → List ℕ → Bool) → KnowsPrograms (context_of M.field_of M.call_of world.now occurs) → outcome_of (image_of world.now.image).lists result state.new
        ≡ act (context_of M.field_of M.call_of world.now occurs) (truths_shown truths.now) (Some instruction) (seen (image_of world.now.image).lists state.old) }
    ensures room { marks.new.room ≡ marks.old.room }
    ensures least { steps.old ≤ steps.new }
    ensures most { (x : ℕ) → AreShort x state.old.stack → steps.new + 1 ≤ steps.old + instruction_cost (image_of world.now.image) x instruction }
{
    match instruction {
        Instruction::End => finish(state),
        Instruction::SkipFalse(end) => skip(state, false, end),
        Instruction::SkipTrue(end) => skip(state, true, end),
        Instruction::LoopRange { quantifier, end } => begin_range(state, quantifier, end),
        Instruction::LoopList {
            quantifier,
            end,
            items,
        } => begin_list(state, quantifier, end, items),
        Instruction::LoopStrings {
            quantifier,
            end,
            first,
            rows,
        } => begin_strings(
            state,
            world.image.bytes_of(11),
            quantifier,
            end,
            first,
            rows,
        ),
        Instruction::LoopEnd(c) => end_turn(state, world.image.bytes_of(11), c),
        Instruction::Matches(c) => {
            test_program(&mut state.stack, &world.image, c, marks, steps);
            state.place += 1;
            None
        }
        _ => {
            give(world, truths, &state.loops, &mut state.stack, instruction);
            state.place += 1;
            None
        }
    }
}
