//! Numbers in rows.

ghost use Rattle.std.specs.Prelude.{◌≡◌, ◌+◌, ◌≤◌, length};
ghost use Rattle.yr_rows.specs.Rows.{number_at};

/// The number of the four bytes at a place, the lowest byte first.
#[inline]
pub fn number_at(bytes: &[u8], at: usize) -> u32
    requires { at + 4 ≤ length bytes.now }
    ensures { result ≡ number_at bytes.now at }
{
    u32::from(bytes[at])
        + u32::from(bytes[at + 1]) * 0x100
        + u32::from(bytes[at + 2]) * 0x1_0000
        + u32::from(bytes[at + 3]) * 0x100_0000
}
