//! Whether members of a list are below a bound, with the greatest members of blocks at hand: a long list that many rows
//! of code name is not read anew at each of them.

ghost use Rattle.std.specs.Prelude.{◌≡◌, ◌+◌, ◌<◌, ◌≤◌, ◌^◌, nat_lt, length, slice_index, slice_get, Some};
ghost use Rattle.yr_image.specs.Image.{members_of};
ghost use Rattle.yr_image.specs.Views.{image_of};
ghost use Rattle.yr_machine.specs.Named.{all_below};
ghost use Rattle.yr_verifier.specs.Blocks.{AreAtMost, AreMost};

use crate::counting::count_lists;
use crate::lists::Lists;
use yr_image::ImageView;

// The rows of a block: about the square root of all.
fn size_for(rows: u32) -> u32
    ensures some { 0 < result }
    ensures small { result ≤ 16384 }
{
    if rows <= 0x1000 {
        64
    } else if rows <= 0x1_0000 {
        256
    } else if rows <= 0x10_0000 {
        1024
    } else if rows <= 0x100_0000 {
        4096
    } else {
        16_384
    }
}

// The greatest member from a row on, of so many rows.
fn greatest(view: &ImageView, from: u64, size: u32) -> u32
    requires { from < 2 ^ 60 }
    ensures { AreAtMost (image_of view.now).lists result from (from + size) }
{
    let all = u64::from(count_lists(view));
    let mut most = 0;
    for k in from..from + u64::from(size) {
        if k < all {
            most = greater(most, view.list(k as u32));
        }
    }
    most
}

fn greater(a: u32, b: u32) -> u32
    ensures first { a ≤ result }
    ensures second { b ≤ result }
{
    if a < b { b } else { a }
}

fn fewer(a: u32, b: u32) -> u32
    ensures { result ≤ b }
{
    if a < b { a } else { b }
}

impl Lists {
    ghost use Rattle.yr_image.specs.Views.{image_of};
    ghost use Rattle.yr_verifier.specs.Blocks.{AreMost};

    /// The greatest members of an image's lists.
    pub fn of(view: &ImageView) -> Lists
        ensures { AreMost (image_of view.now) result }
    {
        let rows = count_lists(view);
        let size = size_for(rows);
        let blocks = fewer(rows / size, 32_768);
        let mut most = [0; 32_768];
        for b in 0..blocks {
            most[b as usize] = greatest(view, u64::from(b) * u64::from(size), size);
        }
        Lists { size, blocks, most }
    }
}

// Whether the greatest member of a block is below a bound.
fn is_below(lists: &Lists, b: u64, bound: u32) -> bool
    requires { b < lists.now.blocks }
    ensures { result ≡ nat_lt (slice_index lists.now.most b) bound }
{
    lists.most[b as usize] < bound
}

/// Whether the members that stand in these list rows are below a bound.
pub fn all_below(view: &ImageView, lists: &Lists, first: u32, rows: u32, bound: u32) -> bool
    requires inside { first + rows ≤ length (image_of view.now).lists }
    requires small { first + rows < 2 ^ 32 }
    requires most { AreMost (image_of view.now) lists.now }
    ensures { result ≡ all_below bound (members_of (image_of view.now) first rows) }
{
    let size = u64::from(lists.size);
    let blocks = u64::from(lists.blocks);
    let end = u64::from(first) + u64::from(rows);
    let mut k = u64::from(first);
    let mut b = k / size + 1;
    let mut start = b * size;
    while k < end {
        if k == start && b < blocks && k + size <= end && is_below(lists, b, bound) {
            k += size;
            b += 1;
            start += size;
        } else {
            if view.list(k as u32) >= bound {
                return false;
            }
            k += 1;
        }
    }
    true
}
