//! Instructions that ask about the matches of one string.

ghost use Rattle.std.specs.Prelude.{◌≡◌, ◌≤◌, ◌<◌, Bool, List, pos, length};
ghost use Rattle.yr_values.specs.Values.{shown, Number as PlainNumber};
ghost use Rattle.yr_values.specs.Operators.{of_one};
ghost use Rattle.yr_answer.specs.Lookups.{list_at, anywhere, at_offset, in_range, presence_of, count_of, count_in_of, offset_of, length_of};
ghost use Rattle.yr_machine.specs.Operations.{Context, on_one, on_two, matches_in};
ghost use Rattle.yr_vm.specs.Given.{given};
ghost use Rattle.yr_vm.specs.OpenLoops.{presents_shown};
ghost use Rattle.yr_vm.specs.Strings.{IsNamed};

use crate::asked::{Asked, asked_at, asked_within, has_asked};
use crate::loops::Loops;
use crate::stack::Stack;
use crate::turns::Present;
use yr_answer::Matches;
use yr_base::Value;
use yr_image::NamedString;

/// The number of a string that an instruction names.
#[inline]
pub fn string_of(matches: &Matches, loops: &Loops, named: NamedString) -> u32
    requires { IsNamed (length matches.now.lists) (presents_shown loops.now) named }
    ensures list { (context : Context) (truths : List Bool) → context.lists ≡ matches.now.lists →
        matches_in context truths (presents_shown loops.now) named ≡ list_at matches.now.lists result }
    ensures there { result < length matches.now.lists }
{
    match named {
        NamedString::Known(c) => c,
        NamedString::Current(c) => match loops.present(c) {
            Present::Member(k) => k,
            _ => unreachable!(),
        },
    }
}

/// Whether the string matches.
#[inline]
pub fn has(stack: &mut Stack<'_>, matches: &Matches, string: u32)
    requires string { string < length matches.now.lists }
    requires room { length stack.old < 4096 }
    ensures { stack.new ≡ given 0 (λ operands. presence_of anywhere (list_at matches.now.lists string)) stack.old }
{
    let value = Value::Flag(has_asked(matches, string, Asked::Anywhere));
    stack.put(0, value);
}

/// Whether it matches at an offset.
#[inline]
pub fn has_at(stack: &mut Stack<'_>, matches: &Matches, string: u32)
    requires string { string < length matches.now.lists }
    requires there { 1 ≤ length stack.old }
    ensures { stack.new ≡ given 1 (on_one (λ v. presence_of (at_offset v) (list_at matches.now.lists string))) stack.old }
{
    let value = match asked_at(stack.one()) {
        Some(asked) => Value::Flag(has_asked(matches, string, asked)),
        None => Value::Undefined,
    };
    stack.put(1, value);
}

/// Whether it matches in a range.
#[inline]
pub fn has_in(stack: &mut Stack<'_>, matches: &Matches, string: u32)
    requires string { string < length matches.now.lists }
    requires there { 2 ≤ length stack.old }
    ensures { stack.new ≡ given 2 (on_two (λ v w. presence_of (in_range v w) (list_at matches.now.lists string))) stack.old }
{
    let (v, w) = stack.two();
    let value = match asked_within(v, w) {
        Some(asked) => Value::Flag(has_asked(matches, string, asked)),
        None => Value::Undefined,
    };
    stack.put(2, value);
}

/// How often it matches.
#[inline]
pub fn count(stack: &mut Stack<'_>, matches: &Matches, string: u32)
    requires string { string < length matches.now.lists }
    requires room { length stack.old < 4096 }
    ensures { stack.new ≡ given 0 (λ operands. count_of (list_at matches.now.lists string)) stack.old }
{
    let value = Value::Number(i64::from(matches.count(string)));
    stack.put(0, value);
}

/// How often it matches in a range.
#[inline]
pub fn count_in(stack: &mut Stack<'_>, matches: &Matches, string: u32)
    requires string { string < length matches.now.lists }
    requires there { 2 ≤ length stack.old }
    ensures { stack.new ≡ given 2 (on_two (λ v w. count_in_of (in_range v w) (list_at matches.now.lists string))) stack.old }
{
    let value = match stack.two() {
        (Value::Number(x), Value::Number(y)) => Value::Number(i64::from(matches.in_range(
            string, *x, *y,
        ))),
        _ => Value::Undefined,
    };
    stack.put(2, value);
}

// A number, or undefined.
#[inline]
fn found(number: Option<u32>) -> Value<'static>
    ensures { shown result ≡ of_one (λ n. PlainNumber (pos n)) number }
{
    match number {
        Some(n) => Value::Number(i64::from(n)),
        None => Value::Undefined,
    }
}

/// The offset of the match with a number.
#[inline]
pub fn offset(stack: &mut Stack<'_>, matches: &Matches, string: u32)
    requires string { string < length matches.now.lists }
    requires there { 1 ≤ length stack.old }
    ensures { stack.new ≡ given 1 (on_one (offset_of (list_at matches.now.lists string))) stack.old }
{
    let value = match stack.one() {
        Value::Number(k) => found(matches.offset(string, *k)),
        _ => Value::Undefined,
    };
    stack.put(1, value);
}

/// The length of the match with a number.
#[inline]
pub fn length(stack: &mut Stack<'_>, matches: &Matches, string: u32)
    requires string { string < length matches.now.lists }
    requires there { 1 ≤ length stack.old }
    ensures { stack.new ≡ given 1 (on_one (length_of (list_at matches.now.lists string))) stack.old }
{
    let value = match stack.one() {
        Value::Number(k) => found(matches.length(string, *k)),
        _ => Value::Undefined,
    };
    stack.put(1, value);
}
