//! A window of external variables in the table, and those behind it.

ghost use Rattle.std.specs.Prelude.{◌≡◌, ◌<◌, ◌≤◌, length};
ghost use Rattle.yr_image.specs.Views.{image_of};
ghost use Rattle.yr_verifier.specs.Names.{name_at};
ghost use Rattle.yr_verifier.specs.Hashes.{slot_of};
ghost use Rattle.yr_verifier.specs.Tables.{AreFree, Keeps, Found};
ghost use Rattle.yr_verifier.specs.Windows.{WindowEnds, FindsIn};

use crate::hashing::slot_of;
use crate::name::name_at;
use crate::table::{Place, find};
use yr_image::ImageView;

/// A window has no more external variables than this: the table is never more than half full.
const WINDOW: u32 = 65_536;

/// Where a window ends.
#[derive(Clone, Copy)]
pub enum WindowEnd {
    /// Before this external variable.
    Before(u32),
    /// At this one, whose name an earlier one of the window has.
    Repeat(u32),
}

/// The external variables from one to another.
#[derive(Clone, Copy)]
pub struct Window {
    pub from: u32,
    pub to: u32,
}

/// Frees each place of a table.
pub fn clear(table: &mut [u32])
    ensures { AreFree table.new }
{
    for entry in table.iter_mut() {
        *entry = 0;
    }
}

// Searches the name of external variable k, from a window in the table.
fn place_of(view: &ImageView, key: u32, table: &[u32], window: Window, k: u32) -> Place
    requires number { k < length (image_of view.now).externals }
    requires inside { window.to ≤ length (image_of view.now).externals }
    requires room { 131072 ≤ length table.now }
    requires keeps { Keeps (image_of view.now) key table.now window.from window.to }
    ensures { Found (image_of view.now) table.now (name_at (image_of view.now) k) (slot_of key (name_at (image_of view.now) k)) result }
{
    let name = name_at(view, k);
    find(view, table, slot_of(key, name), name)
}

/// Fills an empty table with the external variables from one on.
pub fn fill(view: &ImageView, key: u32, table: &mut [u32], from: u32, end: u32) -> WindowEnd
    requires some { from < end }
    requires inside { end ≤ length (image_of view.now).externals }
    requires room { 131072 ≤ length table.old }
    requires free { AreFree table.old }
    ensures { WindowEnds (image_of view.now) key table.new from end result }
{
    for k in from..end {
        if k - from >= WINDOW {
            return WindowEnd::Before(k);
        }
        match place_of(view, key, table, Window { from, to: k }, k) {
            Place::Taken => return WindowEnd::Repeat(k),
            Place::Nowhere => return WindowEnd::Before(k),
            Place::Free(at) => table[at] = k + 1,
        }
    }
    WindowEnd::Before(end)
}

/// The first external variable behind a window that has a name of it.
pub fn first_in(view: &ImageView, key: u32, table: &[u32], window: Window, end: u32) -> Option<u32>
    requires inside { end ≤ length (image_of view.now).externals }
    requires behind { window.to ≤ end }
    requires room { 131072 ≤ length table.now }
    requires keeps { Keeps (image_of view.now) key table.now window.from window.to }
    ensures { FindsIn (image_of view.now) window.from window.to end result }
{
    for k in window.to..end {
        match place_of(view, key, table, window, k) {
            Place::Taken => return Some(k),
            Place::Free(_) => {}
            Place::Nowhere => {}
        }
    }
    None
}
