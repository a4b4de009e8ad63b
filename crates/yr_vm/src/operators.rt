//! Instructions that compute with the values on top of the stack.

ghost use Rattle.std.specs.Prelude.{◌≡◌, ◌≤◌, length};
ghost use Rattle.yr_values.specs.Values.{shown};
ghost use Rattle.yr_values.specs.Comparisons.{less_of};
ghost use Rattle.yr_machine.specs.Operations.{on_one, on_two, arithmetic_of, comparison_of, text_test_of, reader_of, truth_of, settled_of};
ghost use Rattle.yr_values.specs.Operators.{contrary_of, definedness_of};
ghost use Rattle.yr_values.specs.Numbers.{negation_of, complement_of};
ghost use Rattle.yr_vm.specs.Given.{given};

use crate::stack::Stack;
use yr_base::Value;
use yr_image::{Arithmetic, Comparison, Reader, TextTest};

/// An operator of two numbers.
#[inline]
pub fn compute(stack: &mut Stack<'_>, operator: Arithmetic)
    requires { 2 ≤ length stack.old }
    ensures { stack.new ≡ given 2 (on_two (arithmetic_of operator)) stack.old }
{
    let (v, w) = stack.two();
    let value = match operator {
        Arithmetic::Multiply => yr_values::product(v, w),
        Arithmetic::Divide => yr_values::quotient(v, w),
        Arithmetic::Remainder => yr_values::remainder(v, w),
        Arithmetic::Add => yr_values::sum(v, w),
        Arithmetic::Subtract => yr_values::difference(v, w),
        Arithmetic::ShiftLeft => yr_values::left_shift(v, w),
        Arithmetic::ShiftRight => yr_values::right_shift(v, w),
        Arithmetic::BitAnd => yr_values::bit_and(v, w),
        Arithmetic::BitXor => yr_values::bit_xor(v, w),
        Arithmetic::BitOr => yr_values::bit_or(v, w),
    };
    stack.put(2, value);
}

/// A comparison of two values.
#[inline]
pub fn compare(stack: &mut Stack<'_>, comparison: Comparison)
    requires { 2 ≤ length stack.old }
    ensures { stack.new ≡ given 2 (on_two (comparison_of comparison)) stack.old }
{
    let (v, w) = stack.two();
    let value = match comparison {
        Comparison::Less => yr_values::less(v, w),
        Comparison::LessOrEqual => yr_values::at_most(v, w),
        Comparison::Greater => yr_values::greater(v, w),
        Comparison::GreaterOrEqual => yr_values::at_least(v, w),
        Comparison::Equal => yr_values::equal(v, w),
        Comparison::NotEqual => yr_values::unequal(v, w),
    };
    stack.put(2, value);
}

/// A test of two texts.
pub fn test_texts(stack: &mut Stack<'_>, test: TextTest)
    requires { 2 ≤ length stack.old }
    ensures { stack.new ≡ given 2 (on_two (text_test_of test)) stack.old }
{
    let (v, w) = stack.two();
    let value = match test {
        TextTest::Contains => yr_values::contains(v, w),
        TextTest::IContains => yr_values::icontains(v, w),
        TextTest::StartsWith => yr_values::startswith(v, w),
        TextTest::IStartsWith => yr_values::istartswith(v, w),
        TextTest::EndsWith => yr_values::endswith(v, w),
        TextTest::IEndsWith => yr_values::iendswith(v, w),
        TextTest::IEquals => yr_values::iequals(v, w),
    };
    stack.put(2, value);
}

/// The number in the file's bytes from a place on.
#[inline]
pub fn read(stack: &mut Stack<'_>, reader: Reader, file: &[u8])
    requires { 1 ≤ length stack.old }
    ensures { stack.new ≡ given 1 (on_one (reader_of reader file.now)) stack.old }
{
    let at = stack.one();
    let value = match reader {
        Reader::Int8 => yr_values::int8(file, at),
        Reader::Int16 => yr_values::int16(file, at),
        Reader::Int32 => yr_values::int32(file, at),
        Reader::Uint8 => yr_values::uint8(file, at),
        Reader::Uint16 => yr_values::uint16(file, at),
        Reader::Uint32 => yr_values::uint32(file, at),
        Reader::Int8Be => yr_values::int8be(file, at),
        Reader::Int16Be => yr_values::int16be(file, at),
        Reader::Int32Be => yr_values::int32be(file, at),
        Reader::Uint8Be => yr_values::uint8be(file, at),
        Reader::Uint16Be => yr_values::uint16be(file, at),
        Reader::Uint32Be => yr_values::uint32be(file, at),
    };
    stack.put(1, value);
}

/// A number with the other sign.
#[inline]
pub fn negate(stack: &mut Stack<'_>)
    requires { 1 ≤ length stack.old }
    ensures { stack.new ≡ given 1 (on_one negation_of) stack.old }
{
    let value = yr_values::negation(stack.one());
    stack.put(1, value);
}

/// A number with all bits changed.
#[inline]
pub fn flip(stack: &mut Stack<'_>)
    requires { 1 ≤ length stack.old }
    ensures { stack.new ≡ given 1 (on_one complement_of) stack.old }
{
    let value = yr_values::complement(stack.one());
    stack.put(1, value);
}

/// Whether a value does not hold.
#[inline]
pub fn deny(stack: &mut Stack<'_>)
    requires { 1 ≤ length stack.old }
    ensures { stack.new ≡ given 1 (on_one contrary_of) stack.old }
{
    let value = yr_values::contrary(stack.one());
    stack.put(1, value);
}

/// Whether a value is there.
#[inline]
pub fn define(stack: &mut Stack<'_>)
    requires { 1 ≤ length stack.old }
    ensures { stack.new ≡ given 1 (on_one definedness_of) stack.old }
{
    let value = yr_values::definedness(stack.one());
    stack.put(1, value);
}

/// Whether a value holds. What is undefined stays so.
#[inline]
pub fn assess(stack: &mut Stack<'_>)
    requires { 1 ≤ length stack.old }
    ensures { stack.new ≡ given 1 (on_one truth_of) stack.old }
{
    let v = stack.one();
    let value = match v {
        Value::Undefined => Value::Undefined,
        _ => Value::Flag(yr_values::holds(v)),
    };
    stack.put(1, value);
}

/// Whether a flag holds. What is undefined becomes false.
#[inline]
pub fn settle(stack: &mut Stack<'_>)
    requires { 1 ≤ length stack.old }
    ensures { stack.new ≡ given 1 (on_one settled_of) stack.old }
{
    let value = Value::Flag(yr_values::holds(stack.one()));
    stack.put(1, value);
}
