//! The first external variable that has the name of an earlier one.

ghost use Rattle.std.specs.Prelude.{◌≡◌, ◌↔◌, ◌<◌, ◌≤◌, IsTrue, length, unwrap_or};
ghost use Rattle.yr_image.specs.Views.{image_of};
ghost use Rattle.yr_verifier.specs.Names.{IsNew, FindsRepeat};
ghost use Rattle.yr_verifier.specs.Windows.{AreDone};

use crate::hashing::key_of;
use crate::name::{name_at, same};
use crate::windows::{Window, WindowEnd, clear, fill, first_in};
use yr_image::ImageView;

/// Up to so many, each is compared with all before it.
const FEW: u32 = 256;

// Whether no earlier external variable has the name of number k.
fn is_new(view: &ImageView, k: u32) -> bool
    requires { k < length (image_of view.now).externals }
    ensures { IsTrue result ↔ IsNew (image_of view.now) k }
{
    let name = name_at(view, k);
    for j in 0..k {
        if same(name_at(view, j), name) {
            return false;
        }
    }
    true
}

fn repeated_of_few(view: &ImageView, end: u32) -> Option<u32>
    requires { end ≤ length (image_of view.now).externals }
    ensures { FindsRepeat (image_of view.now) end result }
{
    for k in 0..end {
        if !is_new(view, k) {
            return Some(k);
        }
    }
    None
}

// The number that is found, or else another.
fn number_or(found: Option<u32>, other: u32) -> u32
    ensures { result ≡ unwrap_or found other }
{
    match found {
        Some(k) => k,
        None => other,
    }
}

// Window after window goes into the table, and the names behind it are searched there.
fn repeated_of_many(view: &ImageView, end: u32) -> Option<u32>
    requires { end ≤ length (image_of view.now).externals }
    ensures { FindsRepeat (image_of view.now) end result }
{
    let key = key_of(view);
    let mut table = [0; 196_608];
    let mut bound = end;
    let mut from = 0;
    while from < bound {
        clear(&mut table);
        match fill(view, key, &mut table, from, bound) {
            WindowEnd::Repeat(k) => return Some(k),
            WindowEnd::Before(to) => {
                bound = number_or(
                    first_in(view, key, &table, Window { from, to }, bound),
                    bound,
                );
                from = to;
            }
        }
    }
    if bound < end { Some(bound) } else { None }
}

/// The first external variable below an end that has the name of an earlier one.
pub fn repeated(view: &ImageView, end: u32) -> Option<u32>
    requires { end ≤ length (image_of view.now).externals }
    ensures { FindsRepeat (image_of view.now) end result }
{
    if end <= FEW {
        repeated_of_few(view, end)
    } else {
        repeated_of_many(view, end)
    }
}
