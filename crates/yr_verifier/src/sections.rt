//! The check of the sections: where each ends, and how many rows it may have.

ghost use Rattle.std.specs.Prelude.{◌≡◌, ◌↔◌, ◌≤◌, ◌<◌, ◌^◌, IsTrue, length, slice_index};
ghost use Rattle.yr_image.specs.Sections.{rule_width, widths, version_in, rows_of, size_of, end_of, SectionFits};
ghost use Rattle.yr_verifier.specs.Firsts.{Reaches, Checked};

use yr_image::ImageFault;
use yr_rows::number_at;

/// There are no more rules, and no more strings, than this.
pub const MOST_RULES: u32 = 65_535;

fn rule_width(version: u8) -> usize
    ensures row { result ≡ rule_width version }
    ensures small { result ≤ 40 }
{
    if version == 1 { 32 } else { 40 }
}

// The bytes of a row of section k.
fn width(version: u8, k: u32) -> usize
    requires { k < 14 }
    ensures row { result ≡ slice_index (widths version) k }
    ensures small { result ≤ 40 }
{
    match k {
        0 => rule_width(version),
        1 | 2 | 8 => 24,
        3 | 7 | 12 => 16,
        4 | 5 => 32,
        6 | 9 => 8,
        10 | 11 => 4,
        _ => 1,
    }
}

// The rows of section k, as the header says.
fn rows(bytes: &[u8], k: u32) -> u32
    requires header { 64 ≤ length bytes.now }
    requires section { k < 14 }
    ensures { result ≡ rows_of bytes.now k }
{
    number_at(bytes, 8 + 4 * k as usize)
}

// The bytes of section k.
fn size(bytes: &[u8], k: u32) -> usize
    requires header { 64 ≤ length bytes.now }
    requires section { k < 14 }
    ensures value { result ≡ size_of bytes.now k }
    ensures small { result < 2 ^ 40 }
{
    rows(bytes, k) as usize * width(bytes[3], k)
}

// Whether section k, which ends here, fits.
fn fits(bytes: &[u8], k: u32, end: usize) -> bool
    requires header { 64 ≤ length bytes.now }
    requires section { k < 14 }
    requires end { end ≡ end_of bytes.now k }
    ensures { IsTrue result ↔ SectionFits bytes.now k }
{
    if end > bytes.len() {
        return false;
    }
    match k {
        0 => rows(bytes, 0) <= MOST_RULES,
        3 => rows(bytes, 3) <= MOST_RULES,
        8 => rows(bytes, 8) > 0,
        13 => end == bytes.len(),
        _ => true,
    }
}

/// The fifth check.
pub fn check_sections(bytes: &[u8]) -> Result<(), ImageFault>
    requires { Reaches bytes.now 5 0 }
    ensures { Checked bytes.now 6 result }
{
    let mut place = 64;
    for k in 0..14 {
        let end = place + size(bytes, k);
        if !fits(bytes, k, end) {
            return Err(ImageFault::Section(k));
        }
        place = end;
    }
    Ok(())
}
