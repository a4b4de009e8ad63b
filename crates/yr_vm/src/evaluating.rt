//! The truths of all rules of an image.

ghost use Rattle.std.specs.Prelude.{◌≡◌, ◌≤◌, ◌<◌, ◌^◌, ℕ, Bool, List, length, map};
ghost use Rattle.yr_values.specs.Values.{shown};
ghost use Rattle.yr_answer.specs.Truths.{truths_shown, is_yes};
ghost use Rattle.yr_image.specs.Reading.{image_in};
ghost use Rattle.yr_image.specs.Views.{image_of, shown_bytes};
ghost use Rattle.yr_machine.specs.ImageRun.{KnowsPrograms, FitExternals, FitModules};
ghost use Rattle.yr_machine.specs.Operations.{Context};
ghost use Rattle.yr_machine.specs.Wellformed.{IsWellformed};
ghost use Rattle.yr_hits.specs.Programs.{HasRoom};
ghost use Rattle.yr_machine.specs.Verified.{bytes_of};
ghost use Rattle.yr_vm.specs.Evaluation.{IsEvaluation, IsContextOf};
ghost use Rattle.yr_vm.specs.Worlds.{context_of};

use crate::running::run_code;
use crate::state::State;
use crate::world::World;
use std::sync::ledger::Ledger;
use yr_answer::Matches;
use yr_base::{Steps, Truth, Value};
use yr_machine::VerifiedImage;
use yr_machine::laws::some_programs_are_known;
use yr_moves::Marks;
use yr_values::Modules;

// The truth as results keep it.
#[inline]
fn truth_of(truth: bool) -> Truth
    ensures { is_yes result ≡ truth }
{
    if truth { Truth::Yes } else { Truth::No }
}

// The truths of the rules in order, each found with those before it.
fn run_rules<'a, M: Modules, L: Ledger>(
    world: &World<'a, '_, M>,
    results: &mut [Truth],
    marks: &mut Marks,
    steps: &mut Steps<L>,
)
    requires wellformed { IsWellformed (shown_bytes world.now.image) }
    requires lists { length world.now.matches.now.lists ≡ length (image_of world.now.image).strings }
    requires externals { FitExternals (image_of world.now.image) (map shown world.now.externals.now) }
    requires modules { FitModules world.now.file.now (M.field_of world.now.modules.now) (M.call_of world.now.modules.now) }
    requires knows { (occurs : ℕ → List ℕ → Bool) × KnowsPrograms (context_of M.field_of M.call_of world.now occurs) }
    requires room { HasRoom (image_of world.now.image) marks.old.room }
    requires results { length results.old ≡ length (image_of world.now.image).rules }
    ensures evaluation { (occurs : ℕ → List ℕ → Bool) → KnowsPrograms (context_of M.field_of M.call_of world.now occurs) →
        IsEvaluation (context_of M.field_of M.call_of world.now occurs) (truths_shown results.new) steps.old steps.new }
    ensures room { marks.new.room ≡ marks.old.room }
{
    let mut state = State::new();
    for k in 0..results.len() {
        let rule = world.image.rule(k as u32);
        let truth = run_code(&mut state, world, &results[..k], &rule, marks, steps);
        results[k] = truth_of(truth);
    }
}

/// The truths of the image's rules for this file, these matches and these values. It takes no memory, and it cannot
/// fail.
pub fn evaluate<'a, M: Modules, L: Ledger>(
    image: &'a VerifiedImage<'a>,
    matches: &Matches,
    file: &'a [u8],
    externals: &[Value<'a>],
    modules: &'a M,
    results: &mut [Truth],
    marks: &mut Marks,
    steps: &mut Steps<L>,
)
    requires matches { length matches.now.lists ≡ length (image_in (bytes_of image.now)).strings }
    requires externals { FitExternals (image_in (bytes_of image.now)) (map shown externals.now) }
    requires modules { FitModules file.now (M.field_of modules.now) (M.call_of modules.now) }
    requires results { length results.old ≡ length (image_in (bytes_of image.now)).rules }
    requires room { HasRoom (image_in (bytes_of image.now)) marks.old.room }
    ensures evaluation { (context : Context) → IsContextOf (image_in (bytes_of image.now)) file.now matches.now.lists (map shown externals.now)
        (M.field_of modules.now) (M.call_of modules.now) context → IsEvaluation context (truths_shown results.new) steps.old steps.new }
    ensures room { marks.new.room ≡ marks.old.room }
{
    some_programs_are_known();
    let world = World {
        image: image.view(),
        matches,
        file,
        externals,
        modules,
    };
    run_rules(&world, results, marks, steps);
}
