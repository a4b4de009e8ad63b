//! Numbers in hexadecimal.

ghost use Rattle.std.specs.Prelude.{◌≡◌, ◌≤◌, ◌<◌, false, drop};
ghost use Rattle.std.specs.Fmt.{digit_glyph};
ghost use Rattle.yr_base.specs.Digits.{hexadecimal};

/// The digit of a number below 16.
pub fn hexadecimal_digit(d: u64) -> u8
    requires { d < 16 }
    ensures { result ≡ digit_glyph false d }
{
    if d < 10 {
        b'0' + d as u8
    } else {
        b'a' + (d as u8 - 10)
    }
}

/// Writes the digits at the end of the buffer, and returns where they start.
pub fn write_hexadecimal(n: u64, buffer: &mut [u8; 16]) -> usize
    ensures within { result ≤ 16 }
    ensures written { drop result buffer.new ≡ hexadecimal n }
{
    let mut left = n;
    let mut start = 16;
    while left >= 16 {
        start -= 1;
        buffer[start] = hexadecimal_digit(left % 16);
        left /= 16;
    }
    start -= 1;
    buffer[start] = hexadecimal_digit(left);
    start
}
