//! The checks of the header: its length, its first bytes, its version and the length that it has.

ghost use Rattle.std.specs.Prelude.{◌≡◌, ◌↔◌, ◌≤◌, IsTrue, length};
ghost use Rattle.yr_image.specs.Sections.{IsLongEnough, HasMagic, HasVersion, HasLength};
ghost use Rattle.yr_verifier.specs.Firsts.{Checked};

use yr_image::ImageFault;
use yr_rows::number_at;

/// An image has no more bytes than this.
pub const MOST_BYTES: usize = 2_147_487_744;

fn is_long_enough(bytes: &[u8]) -> bool
    ensures { IsTrue result ↔ IsLongEnough bytes.now }
{
    bytes.len() >= 64
}

fn has_magic(bytes: &[u8]) -> bool
    requires { 64 ≤ length bytes.now }
    ensures { IsTrue result ↔ HasMagic bytes.now }
{
    bytes[0] == 0x59 && bytes[1] == 0x52 && bytes[2] == 0x49
}

fn has_version(bytes: &[u8]) -> bool
    requires { 64 ≤ length bytes.now }
    ensures { IsTrue result ↔ HasVersion bytes.now }
{
    bytes[3] == 1 || bytes[3] == 2
}

fn has_length(bytes: &[u8]) -> bool
    requires { 64 ≤ length bytes.now }
    ensures { IsTrue result ↔ HasLength bytes.now }
{
    let told = number_at(bytes, 4) as usize;
    told == bytes.len() && told <= MOST_BYTES
}

/// The first four checks.
pub fn check_header(bytes: &[u8]) -> Result<(), ImageFault>
    ensures { Checked bytes.now 5 result }
{
    if !is_long_enough(bytes) {
        return Err(ImageFault::TooShort);
    }
    if !has_magic(bytes) {
        return Err(ImageFault::Magic);
    }
    if !has_version(bytes) {
        return Err(ImageFault::Version);
    }
    if !has_length(bytes) {
        return Err(ImageFault::Length);
    }
    Ok(())
}
