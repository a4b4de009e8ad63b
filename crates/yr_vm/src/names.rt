//! Instructions that give what they name.

ghost use Rattle.std.specs.Prelude.{◌≡◌, ◌+◌, ◌<◌, ◌≤◌, ◌^◌, true, false, length, map, slice_get};
ghost use Rattle.yr_values.specs.Values.{shown, Number as PlainNumber, Flag as PlainFlag, Text as PlainText};
ghost use Rattle.yr_values.specs.Operators.{of_one, on_number, on_numbers};
ghost use Rattle.yr_answer.specs.Truths.{truths_shown};
ghost use Rattle.yr_answer.specs.Turns.{variable_of};
ghost use Rattle.yr_image.specs.Views.{image_of};
ghost use Rattle.yr_image.specs.Image.{in_pool, pool_text};
ghost use Rattle.yr_machine.specs.Operations.{on_one, on_two};
ghost use Rattle.std.specs.Option.{option_map_or};
ghost use Rattle.yr_values.specs.Comparisons.{flag_eq};
ghost use Rattle.yr_image.specs.ModuleTable.{field_row_of, call_row_of};
ghost use Rattle.yr_vm.specs.Given.{given};
ghost use Rattle.yr_vm.specs.Fields.{field_takes, field_value};
ghost use Rattle.yr_vm.specs.Earlier.{truth_in};
ghost use Rattle.yr_vm.specs.OpenLoops.{presents_shown};

use crate::loops::Loops;
use crate::members::rule_holds;
use crate::stack::Stack;
use crate::turns::Present;
use yr_base::{Truth, Value};
use yr_image::ImageView;
use yr_values::Modules;

/// A range of the pool.
pub fn text<'a>(stack: &mut Stack<'a>, image: &ImageView<'a>, place: u32, count: u64)
    requires pool { in_pool (image_of image.now) place count ≡ true }
    requires room { length stack.old < 4096 }
    ensures { stack.new ≡ given 0 (λ operands. PlainText (pool_text (image_of image.now) place count)) stack.old }
{
    let pool = image.bytes_of(13);
    let start = place as usize;
    let value = Value::Text(&pool[start..start + count as usize]);
    stack.put(0, value);
}

/// The value of an external variable.
#[inline]
pub fn external<'a>(stack: &mut Stack<'a>, externals: &[Value<'a>], c: u32)
    requires there { c < length externals.now }
    requires room { length stack.old < 4096 }
    ensures { stack.new ≡ given 0 (λ operands. of_one (λ v. v) (slice_get (map shown externals.now) c)) stack.old }
{
    let value = externals[c as usize];
    stack.put(0, value);
}

/// The truth of an earlier rule.
#[inline]
pub fn rule(stack: &mut Stack<'_>, truths: &[Truth], c: u32)
    requires there { c < length truths.now }
    requires room { length stack.old < 4096 }
    ensures { stack.new ≡ given 0 (λ operands. PlainFlag (truth_in (truths_shown truths.now) c)) stack.old }
{
    let value = Value::Flag(rule_holds(truths, c));
    stack.put(0, value);
}

/// The variable of an open loop.
#[inline]
pub fn variable(stack: &mut Stack<'_>, loops: &Loops, c: u32)
    requires there { c < length (presents_shown loops.now) }
    requires room { length stack.old < 4096 }
    ensures { stack.new ≡ given 0 (λ operands. on_number PlainNumber (variable_of (presents_shown loops.now) c)) stack.old }
{
    let value = match loops.present(c) {
        Present::Number(n) => Value::Number(n),
        _ => Value::Undefined,
    };
    stack.put(0, value);
}

// An id as modules take it.
#[inline]
fn id_of(id: u32) -> u16
    requires { id < 2 ^ 16 }
    ensures { result ≡ id }
{
    id as u16
}

/// A module's field, which takes an index or not.
pub fn field<'a, M: Modules>(stack: &mut Stack<'a>, modules: &'a M, indexed: bool, id: u32)
    requires row { option_map_or (λ row. flag_eq indexed row.0) (field_row_of id) false ≡ true }
    requires there { field_takes indexed ≤ length stack.old }
    requires room { length stack.old < 4096 + field_takes indexed }
    ensures { stack.new ≡ given (field_takes indexed) (field_value (M.field_of modules.now) indexed id) stack.old }
{
    if indexed {
        field_at(stack, modules, id_of(id));
    } else {
        let value = modules.field(id_of(id), 0);
        stack.put(0, value);
    }
}

// A module's field at an index.
fn field_at<'a, M: Modules>(stack: &mut Stack<'a>, modules: &'a M, id: u16)
    requires { 1 ≤ length stack.old }
    ensures { stack.new ≡ given 1 (on_one (on_number (M.field_of modules.now id))) stack.old }
{
    let value = match stack.one() {
        Value::Number(index) => modules.field(id, *index),
        _ => Value::Undefined,
    };
    stack.put(1, value);
}

/// A module's call.
pub fn call<'a, M: Modules>(stack: &mut Stack<'a>, modules: &'a M, id: u32)
    requires row { option_map_or (λ k. true) (call_row_of id) false ≡ true }
    requires there { 2 ≤ length stack.old }
    ensures { stack.new ≡ given 2 (on_two (on_numbers (M.call_of modules.now id))) stack.old }
{
    let value = match stack.two() {
        (Value::Number(from), Value::Number(size)) => modules.call(id_of(id), *from, *size),
        _ => Value::Undefined,
    };
    stack.put(2, value);
}
