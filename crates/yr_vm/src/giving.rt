//! Instructions that take values and give one.

ghost use Rattle.std.specs.Prelude.{◌≡◌, ◌+◌, ◌<◌, ◌≤◌, ℕ, Bool, List, true, length, map};
ghost use Rattle.yr_answer.specs.Truths.{truths_shown};
ghost use Rattle.yr_image.specs.Views.{image_of};
ghost use Rattle.yr_machine.specs.Machine.{is_member};
ghost use Rattle.yr_machine.specs.Named.{names_there};
ghost use Rattle.yr_machine.specs.Operations.{value_given};
ghost use Rattle.yr_machine.specs.Roles.{role};
ghost use Rattle.yr_vm.specs.Given.{given};
ghost use Rattle.yr_vm.specs.OpenLoops.{presents_shown};
ghost use Rattle.yr_vm.specs.Taken.{taken_by, IsGiven, AreAmong};
ghost use Rattle.yr_vm.specs.Worlds.{context_of};

use crate::loops::Loops;
use crate::names::{call, external, field, rule, text, variable};
use crate::operators::{
    assess, compare, compute, define, deny, flip, negate, read, settle, test_texts,
};
use crate::sets::judge;
use crate::stack::Stack;
use crate::strings::{count, count_in, has, has_at, has_in, length, offset, string_of};
use crate::world::World;
use yr_base::{Truth, Value};
use yr_image::Instruction;
use yr_values::Modules;

/// What an instruction gives in place of the values that it takes: all instructions but `Matches` and those that lead
/// to another place.
#[inline]
pub fn give<'a, M: Modules>(
    world: &World<'a, '_, M>,
    truths: &[Truth],
    loops: &Loops,
    stack: &mut Stack<'a>,
    instruction: Instruction,
)
    requires given { IsGiven (role (image_of world.now.image) instruction) instruction }
    requires names { names_there (image_of world.now.image) (length truths.now) (map is_member (presents_shown loops.now)) instruction ≡ true }
    requires lists { length world.now.matches.now.lists ≡ length (image_of world.now.image).strings }
    requires externals { length world.now.externals.now ≡ length (image_of world.now.image).externals }
    requires among { AreAmong (length world.now.matches.now.lists) (presents_shown loops.now) }
    requires there { taken_by (image_of world.now.image) instruction ≤ length stack.old }
    requires room { length stack.old < 4096 + taken_by (image_of world.now.image) instruction }
    ensures { (occurs : ℕ → List ℕ → Bool) → stack.new ≡ given (taken_by (image_of world.now.image) instruction)
        (value_given (context_of M.field_of M.call_of world.now occurs) (truths_shown truths.now) (presents_shown loops.now) instruction) stack.old }
{
    let matches = world.matches;
    match instruction {
        Instruction::Number(n) => stack.put(0, Value::Number(n)),
        Instruction::Text { place, length } => text(stack, &world.image, place, length),
        Instruction::Flag(b) => stack.put(0, Value::Flag(b)),
        Instruction::FileSize => stack.put(0, Value::Number(world.file.len() as i64)),
        Instruction::External(c) => external(stack, world.externals, c),
        Instruction::Rule(c) => rule(stack, truths, c),
        Instruction::Var(c) => variable(stack, loops, c),
        Instruction::Field { indexed, id } => field(stack, world.modules, indexed, id),
        Instruction::Call(id) => call(stack, world.modules, id),
        Instruction::Has(s) => has(stack, matches, string_of(matches, loops, s)),
        Instruction::HasAt(s) => has_at(stack, matches, string_of(matches, loops, s)),
        Instruction::HasIn(s) => has_in(stack, matches, string_of(matches, loops, s)),
        Instruction::Count(s) => count(stack, matches, string_of(matches, loops, s)),
        Instruction::CountIn(s) => count_in(stack, matches, string_of(matches, loops, s)),
        Instruction::Offset(s) => offset(stack, matches, string_of(matches, loops, s)),
        Instruction::Length(s) => length(stack, matches, string_of(matches, loops, s)),
        Instruction::Of {
            form,
            quantifier,
            first,
            rows,
        } => {
            let lists = world.image.bytes_of(11);
            judge(stack, form, quantifier, lists, first, rows, matches, truths);
        }
        Instruction::Read(reader) => read(stack, reader, world.file),
        Instruction::Negate => negate(stack),
        Instruction::Flip => flip(stack),
        Instruction::Arith(operator) => compute(stack, operator),
        Instruction::Compare { comparison, .. } => compare(stack, comparison),
        Instruction::Test(test) => test_texts(stack, test),
        Instruction::Not => deny(stack),
        Instruction::Defined => define(stack),
        Instruction::Truth => assess(stack),
        Instruction::Settle => settle(stack),
        Instruction::End => unreachable!(),
        Instruction::Matches(_) => unreachable!(),
        Instruction::SkipFalse(_) => unreachable!(),
        Instruction::SkipTrue(_) => unreachable!(),
        Instruction::LoopRange { .. } => unreachable!(),
        Instruction::LoopList { .. } => unreachable!(),
        Instruction::LoopStrings { .. } => unreachable!(),
        Instruction::LoopEnd(_) => unreachable!(),
    }
}
