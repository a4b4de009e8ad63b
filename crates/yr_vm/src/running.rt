//! The code of one rule.

ghost use Rattle.std.specs.Prelude.{◌≡◌, ◌+◌, ◌<◌, ◌≤◌, ◌^◌, ℕ, Bool, List, Some, length, map, slice_get};
ghost use Rattle.yr_values.specs.Values.{shown};
ghost use Rattle.yr_answer.specs.Truths.{truths_shown};
ghost use Rattle.yr_image.specs.Image.{code_of};
ghost use Rattle.yr_image.specs.Views.{image_of, shown_bytes};
ghost use Rattle.yr_machine.specs.CodeWalk.{IsWellformedCode};
ghost use Rattle.yr_machine.specs.Counts.{NotStuck, cost_there};
ghost use Rattle.yr_machine.specs.ImageRun.{KnowsPrograms, FitExternals, FitModules};
ghost use Rattle.yr_machine.specs.Machine.{step};
ghost use Rattle.yr_machine.specs.Wellformed.{IsWellformed};
ghost use Rattle.yr_machine.proofs.ShortTexts.{AreShort};
ghost use Rattle.yr_hits.specs.Programs.{HasRoom};
ghost use Rattle.yr_vm.specs.OpenLoops.{presents_shown};
ghost use Rattle.yr_vm.specs.Running.{IsTruth};
ghost use Rattle.yr_vm.specs.States.{seen, outcome_of};
ghost use Rattle.yr_vm.specs.Taken.{AreAmong};
ghost use Rattle.yr_vm.specs.Worlds.{context_of};

use crate::acting::act;
use crate::state::State;
use crate::world::World;
use std::sync::ledger::Ledger;
use yr_base::{Steps, Truth};
use yr_image::RuleRow;
use yr_moves::Marks;
use yr_values::Modules;

// Runs the row at the state's place.
#[inline]
fn step<'a, M: Modules, L: Ledger>(
    state: &mut State<'a>,
    world: &World<'a, '_, M>,
    truths: &[Truth],
    rule: &RuleRow,
    marks: &mut Marks,
    steps: &mut Steps<L>,
) -> Option<bool>
    requires small { length (image_of world.now.image).code < 2 ^ 32 }
    requires wellformed { IsWellformed (shown_bytes world.now.image) }
    requires lists { length world.now.matches.now.lists ≡ length (image_of world.now.image).strings }
    requires externals { length world.now.externals.now ≡ length (image_of world.now.image).externals }
    requires knows { (occurs : ℕ → List ℕ → Bool) × KnowsPrograms (context_of M.field_of M.call_of world.now occurs) }
    requires room { HasRoom (image_of world.now.image) marks.old.room }
    requires among { AreAmong (length world.now.matches.now.lists) (presents_shown state.old.loops) }
    requires goes { (occurs : ℕ → List ℕ → Bool) → KnowsPrograms (context_of M.field_of M.call_of world.now occurs) → NotStuck (step (context_of M.field_of M.call_of world.now occurs) (truths_shown truths.now)
        (code_of (image_of world.now.image) rule.now) (seen (image_of world.now.image).lists state.old)) }
    ensures outcome { (occurs : ℕ → List ℕ → Bool) → KnowsPrograms (context_of M.field_of M.call_of world.now occurs) → outcome_of (image_of world.now.image).lists result state.new
        ≡ step (context_of M.field_of M.call_of world.now occurs) (truths_shown truths.now)
        (code_of (image_of world.now.image) rule.now) (seen (image_of world.now.image).lists state.old) }
    ensures room { marks.new.room ≡ marks.old.room }
    ensures least { steps.old + 1 ≤ steps.new }
    ensures most { (occurs : ℕ → List ℕ → Bool) (x : ℕ) → AreShort x state.old.stack → steps.new ≤ steps.old
        + cost_there (context_of M.field_of M.call_of world.now occurs) (truths_shown truths.now) (code_of (image_of world.now.image) rule.now) x state.old.place }
{
    steps.tick();
    let row = world.image.code(rule.first_code + state.place);
    match row.read() {
        None => unreachable!(),
        Some(instruction) => act(state, world, truths, instruction, marks, steps),
    }
}

/// The truth of a rule's code, for the truths of the rules before it.
pub fn run_code<'a, M: Modules, L: Ledger>(
    state: &mut State<'a>,
    world: &World<'a, '_, M>,
    truths: &[Truth],
    rule: &RuleRow,
    marks: &mut Marks,
    steps: &mut Steps<L>,
) -> bool
    requires small { length (image_of world.now.image).code < 2 ^ 32 }
    requires wellformed { IsWellformed (shown_bytes world.now.image) }
    requires lists { length world.now.matches.now.lists ≡ length (image_of world.now.image).strings }
    requires externals { FitExternals (image_of world.now.image) (map shown world.now.externals.now) }
    requires modules { FitModules world.now.file.now (M.field_of world.now.modules.now) (M.call_of world.now.modules.now) }
    requires knows { (occurs : ℕ → List ℕ → Bool) × KnowsPrograms (context_of M.field_of M.call_of world.now occurs) }
    requires room { HasRoom (image_of world.now.image) marks.old.room }
    requires code { IsWellformedCode (image_of world.now.image) (length truths.now) (code_of (image_of world.now.image) rule.now) }
    ensures truth { (occurs : ℕ → List ℕ → Bool) → KnowsPrograms (context_of M.field_of M.call_of world.now occurs) → IsTruth (context_of M.field_of M.call_of world.now occurs) (truths_shown truths.now)
        (code_of (image_of world.now.image) rule.now) result steps.old steps.new }
    ensures room { marks.new.room ≡ marks.old.room }
{
    state.begin();
    loop {
        if let Some(truth) = step(state, world, truths, rule, marks, steps) {
            return truth;
        }
    }
}
