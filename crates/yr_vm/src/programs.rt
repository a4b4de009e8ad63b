//! The instruction that asks whether a program accepts anything in a text.

ghost use Rattle.std.specs.Prelude.{◌≡◌, ℕ, Bool, List, ◌∷◌, [], ◌+◌, ◌*◌, ◌<◌, ◌≤◌, length, take};
ghost use Rattle.std.specs.Option.{option_map};
ghost use Rattle.yr_values.specs.Values.{Value as PlainValue, shown};
ghost use Rattle.yr_values.specs.Operators.{text_in};
ghost use Rattle.yr_answer.specs.Turns.{Turn};
ghost use Rattle.yr_image.specs.Views.{image_of, shown_bytes};
ghost use Rattle.yr_machine.specs.Budget.{moves_count, text_length};
ghost use Rattle.yr_machine.specs.ImageRun.{KnowsPrograms};
ghost use Rattle.yr_machine.specs.Operations.{Context, on_one, program_occurs};
ghost use Rattle.yr_machine.specs.Wellformed.{IsWellformed};
ghost use Rattle.yr_hits.specs.Programs.{HasRoom};
ghost use Rattle.yr_vm.specs.Given.{given};

use crate::stack::Stack;
use std::sync::ledger::Ledger;
use yr_base::{Steps, Value};
use yr_hits::program;
use yr_image::ImageView;
use yr_moves::{Marks, occurs};

// The text that a value is, lent or carried along.
fn text_of<'v>(v: &'v Value<'_>) -> Option<&'v [u8]>
    ensures { option_map (λ t. t.now) result ≡ text_in (shown v.now) }
{
    match v {
        Value::Text(t) => Some(t),
        Value::Short(s) => Some(&s.bytes[..s.len as usize]),
        _ => None,
    }
}

// Whether program c accepts anything in a text.
fn accepts<L: Ledger>(
    image: &ImageView<'_>,
    c: u32,
    text: &[u8],
    marks: &mut Marks,
    steps: &mut Steps<L>,
) -> bool
    requires wellformed { IsWellformed (shown_bytes image.now) }
    requires program { c < length (image_of image.now).programs }
    requires room { HasRoom (image_of image.now) marks.old.room }
    ensures value { (context : Context) → context.image ≡ image_of image.now → KnowsPrograms context → result ≡ context.occurs c text.now }
    ensures room { marks.new.room ≡ marks.old.room }
    ensures least_cost { steps.old ≤ steps.new }
    ensures most_cost { steps.new ≤ steps.old + moves_count (image_of image.now) c * (length text.now + 1) }
{
    occurs(program(image, c), text, marks, steps)
}

/// Whether program c accepts anything in the text on top.
pub fn test_program<L: Ledger>(
    stack: &mut Stack<'_>,
    image: &ImageView<'_>,
    c: u32,
    marks: &mut Marks,
    steps: &mut Steps<L>,
)
    requires wellformed { IsWellformed (shown_bytes image.now) }
    requires program { c < length (image_of image.now).programs }
    requires room { HasRoom (image_of image.now) marks.old.room }
    requires there { 1 ≤ length stack.old }
    ensures value { (context : Context) (truths : List Bool) (turns : List Turn) → context.image ≡ image_of image.now → KnowsPrograms context →
        stack.new ≡ given 1 (on_one (program_occurs context truths turns c)) stack.old }
    ensures room { marks.new.room ≡ marks.old.room }
    ensures least_cost { steps.old ≤ steps.new }
    ensures most_cost { (x : ℕ) (v : PlainValue) → take 1 stack.old ≡ v ∷ [] → text_length v ≤ x →
        steps.new ≤ steps.old + moves_count (image_of image.now) c * (x + 1) }
{
    match text_of(stack.one()) {
        Some(text) => {
            let found = accepts(image, c, text, marks, steps);
            stack.put(1, Value::Flag(found));
        }
        None => stack.put(1, Value::Undefined),
    }
}
