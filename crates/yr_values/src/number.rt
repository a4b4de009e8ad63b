//! The operators on numbers. Operands of another kind, and undefined ones, give undefined.

ghost use Rattle.std.specs.Prelude.{◌≡◌, ◌<◌, ◌^◌, ◌*ℤ◌, pos};
ghost use Rattle.yr_values.specs.Values.{shown};
ghost use Rattle.yr_values.specs.Numbers.{sum_of, difference_of, product_of, negation_of, quotient_of, remainder_of, complement_of, bit_and_of, bit_or_of, bit_xor_of, left_shift_of, right_shift_of};
ghost use Rattle.yr_values.specs.Numbers.{in_64_bits, quotient, remainder, left_shift, right_shift};

use crate::operand::{number, numbers};
use yr_base::Value;

/// `v + w`.
pub fn sum(v: &Value<'_>, w: &Value<'_>) -> Value<'static>
    ensures { shown result ≡ sum_of (shown v.now) (shown w.now) }
{
    match numbers(v, w) {
        Some((x, y)) => Value::Number(x.wrapping_add(y)),
        None => Value::Undefined,
    }
}

/// `v - w`.
pub fn difference(v: &Value<'_>, w: &Value<'_>) -> Value<'static>
    ensures { shown result ≡ difference_of (shown v.now) (shown w.now) }
{
    match numbers(v, w) {
        Some((x, y)) => Value::Number(x.wrapping_sub(y)),
        None => Value::Undefined,
    }
}

/// `v * w`.
pub fn product(v: &Value<'_>, w: &Value<'_>) -> Value<'static>
    ensures { shown result ≡ product_of (shown v.now) (shown w.now) }
{
    match numbers(v, w) {
        Some((x, y)) => Value::Number(x.wrapping_mul(y)),
        None => Value::Undefined,
    }
}

/// `-v`.
pub fn negation(v: &Value<'_>) -> Value<'static>
    ensures { shown result ≡ negation_of (shown v.now) }
{
    match number(v) {
        Some(x) => Value::Number(x.wrapping_neg()),
        None => Value::Undefined,
    }
}

/// `v \ w`.
pub fn quotient(v: &Value<'_>, w: &Value<'_>) -> Value<'static>
    ensures { shown result ≡ quotient_of (shown v.now) (shown w.now) }
{
    match numbers(v, w) {
        Some((x, y)) => divided(x, y),
        None => Value::Undefined,
    }
}

fn divided(x: i64, y: i64) -> Value<'static>
    ensures { shown result ≡ quotient x y }
{
    if y == 0 {
        Value::Undefined
    } else if y == -1 {
        Value::Number(x.wrapping_neg())
    } else {
        Value::Number(x / y)
    }
}

/// `v % w`.
pub fn remainder(v: &Value<'_>, w: &Value<'_>) -> Value<'static>
    ensures { shown result ≡ remainder_of (shown v.now) (shown w.now) }
{
    match numbers(v, w) {
        Some((x, y)) => left_over(x, y),
        None => Value::Undefined,
    }
}

fn left_over(x: i64, y: i64) -> Value<'static>
    ensures { shown result ≡ remainder x y }
{
    if y == 0 {
        Value::Undefined
    } else {
        Value::Number(x.wrapping_rem(y))
    }
}

/// `~v`.
pub fn complement(v: &Value<'_>) -> Value<'static>
    ensures { shown result ≡ complement_of (shown v.now) }
{
    match number(v) {
        Some(x) => Value::Number(!x),
        None => Value::Undefined,
    }
}

/// `v & w`.
pub fn bit_and(v: &Value<'_>, w: &Value<'_>) -> Value<'static>
    ensures { shown result ≡ bit_and_of (shown v.now) (shown w.now) }
{
    match numbers(v, w) {
        Some((x, y)) => Value::Number(x & y),
        None => Value::Undefined,
    }
}

/// `v | w`.
pub fn bit_or(v: &Value<'_>, w: &Value<'_>) -> Value<'static>
    ensures { shown result ≡ bit_or_of (shown v.now) (shown w.now) }
{
    match numbers(v, w) {
        Some((x, y)) => Value::Number(x | y),
        None => Value::Undefined,
    }
}

/// `v ^ w`.
pub fn bit_xor(v: &Value<'_>, w: &Value<'_>) -> Value<'static>
    ensures { shown result ≡ bit_xor_of (shown v.now) (shown w.now) }
{
    match numbers(v, w) {
        Some((x, y)) => Value::Number(x ^ y),
        None => Value::Undefined,
    }
}

/// `v << w`.
pub fn left_shift(v: &Value<'_>, w: &Value<'_>) -> Value<'static>
    ensures { shown result ≡ left_shift_of (shown v.now) (shown w.now) }
{
    match numbers(v, w) {
        Some((x, by)) => shifted_left(x, by),
        None => Value::Undefined,
    }
}

fn shifted_left(x: i64, by: i64) -> Value<'static>
    ensures { shown result ≡ left_shift x by }
{
    if by < 0 {
        Value::Undefined
    } else if by < 64 {
        Value::Number(doubled(x, by as u32))
    } else {
        Value::Number(0)
    }
}

// A number doubled so many times.
fn doubled(x: i64, times: u32) -> i64
    requires { times < 64 }
    ensures { result ≡ in_64_bits (x *ℤ pos (2 ^ times)) }
{
    x.wrapping_shl(times)
}

/// `v >> w`.
pub fn right_shift(v: &Value<'_>, w: &Value<'_>) -> Value<'static>
    ensures { shown result ≡ right_shift_of (shown v.now) (shown w.now) }
{
    match numbers(v, w) {
        Some((x, by)) => shifted_right(x, by),
        None => Value::Undefined,
    }
}

fn shifted_right(x: i64, by: i64) -> Value<'static>
    ensures { shown result ≡ right_shift x by }
{
    if by < 0 {
        Value::Undefined
    } else if by < 64 {
        Value::Number(x.wrapping_shr(by as u32))
    } else {
        Value::Number(0)
    }
}
