//! The readers of numbers in a file. An operand that is no number gives undefined.

ghost use Rattle.std.specs.Prelude.{◌≡◌, ◌+◌, ◌<◌, ◌≤◌, ℕ, ℤ, pos, List, length, slice_range, MatchOption};
ghost use Rattle.yr_values.specs.Values.{shown};
ghost use Rattle.yr_values.specs.Readers.{bytes_at, uint8_of, int8_of, uint16_of, uint32_of, uint16be_of, uint32be_of, int16_of, int32_of, int16be_of, int32be_of, uint8be_of, int8be_of};
ghost use Rattle.std.specs.Option.{option_map};

use crate::operand::number;
use byteorder::{BigEndian, ByteOrder, LittleEndian};
use yr_base::Value;

// The bytes from a place on, where so many of them lie in the file.
fn bytes_at<'a>(file: &'a [u8], at: &Value<'_>, count: usize) -> Option<&'a [u8]>
    requires { count ≤ 4 }
    ensures { option_map (λ b. b.now) result ≡ bytes_at count file.now (shown at.now) }
{
    let at = number(at)?;
    if at < 0 || at as usize + count > file.len() {
        return None;
    }
    let at = at as usize;
    Some(&file[at..at + count])
}

/// `uint8(at)`.
pub fn uint8(file: &[u8], at: &Value<'_>) -> Value<'static>
    ensures { shown result ≡ uint8_of file.now (shown at.now) }
{
    match bytes_at(file, at, 1) {
        Some(bytes) => Value::Number(bytes[0] as i64),
        None => Value::Undefined,
    }
}

/// `int8(at)`.
pub fn int8(file: &[u8], at: &Value<'_>) -> Value<'static>
    ensures { shown result ≡ int8_of file.now (shown at.now) }
{
    match bytes_at(file, at, 1) {
        Some(bytes) => Value::Number(bytes[0].cast_signed() as i64),
        None => Value::Undefined,
    }
}

/// `uint16(at)`.
pub fn uint16(file: &[u8], at: &Value<'_>) -> Value<'static>
    ensures { shown result ≡ uint16_of file.now (shown at.now) }
{
    match bytes_at(file, at, 2) {
        Some(bytes) => Value::Number(LittleEndian::read_u16(bytes) as i64),
        None => Value::Undefined,
    }
}

/// `uint32(at)`.
pub fn uint32(file: &[u8], at: &Value<'_>) -> Value<'static>
    ensures { shown result ≡ uint32_of file.now (shown at.now) }
{
    match bytes_at(file, at, 4) {
        Some(bytes) => Value::Number(LittleEndian::read_u32(bytes) as i64),
        None => Value::Undefined,
    }
}

/// `int16(at)`.
pub fn int16(file: &[u8], at: &Value<'_>) -> Value<'static>
    ensures { shown result ≡ int16_of file.now (shown at.now) }
{
    match bytes_at(file, at, 2) {
        Some(bytes) => Value::Number(LittleEndian::read_i16(bytes) as i64),
        None => Value::Undefined,
    }
}

/// `int32(at)`.
pub fn int32(file: &[u8], at: &Value<'_>) -> Value<'static>
    ensures { shown result ≡ int32_of file.now (shown at.now) }
{
    match bytes_at(file, at, 4) {
        Some(bytes) => Value::Number(LittleEndian::read_i32(bytes) as i64),
        None => Value::Undefined,
    }
}

/// `uint16be(at)`.
pub fn uint16be(file: &[u8], at: &Value<'_>) -> Value<'static>
    ensures { shown result ≡ uint16be_of file.now (shown at.now) }
{
    match bytes_at(file, at, 2) {
        Some(bytes) => Value::Number(BigEndian::read_u16(bytes) as i64),
        None => Value::Undefined,
    }
}

/// `uint32be(at)`.
pub fn uint32be(file: &[u8], at: &Value<'_>) -> Value<'static>
    ensures { shown result ≡ uint32be_of file.now (shown at.now) }
{
    match bytes_at(file, at, 4) {
        Some(bytes) => Value::Number(BigEndian::read_u32(bytes) as i64),
        None => Value::Undefined,
    }
}

/// `int16be(at)`.
pub fn int16be(file: &[u8], at: &Value<'_>) -> Value<'static>
    ensures { shown result ≡ int16be_of file.now (shown at.now) }
{
    match bytes_at(file, at, 2) {
        Some(bytes) => Value::Number(BigEndian::read_i16(bytes) as i64),
        None => Value::Undefined,
    }
}

/// `int32be(at)`.
pub fn int32be(file: &[u8], at: &Value<'_>) -> Value<'static>
    ensures { shown result ≡ int32be_of file.now (shown at.now) }
{
    match bytes_at(file, at, 4) {
        Some(bytes) => Value::Number(BigEndian::read_i32(bytes) as i64),
        None => Value::Undefined,
    }
}

/// `uint8be(at)`: one byte has no order.
pub fn uint8be(file: &[u8], at: &Value<'_>) -> Value<'static>
    ensures { shown result ≡ uint8be_of file.now (shown at.now) }
{
    uint8(file, at)
}

/// `int8be(at)`: one byte has no order.
pub fn int8be(file: &[u8], at: &Value<'_>) -> Value<'static>
    ensures { shown result ≡ int8be_of file.now (shown at.now) }
{
    int8(file, at)
}
