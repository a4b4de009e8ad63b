//! A table of names by their hashes.

ghost use Rattle.std.specs.Prelude.{◌≡◌, ◌<◌, ◌≤◌, ℕ, length, slice_index};
ghost use Rattle.yr_image.specs.Views.{image_of};
ghost use Rattle.yr_verifier.specs.Tables.{Found};

use crate::name::{name_at, same};
use yr_image::ImageView;

/// Where a search in the table ends.
#[derive(Clone, Copy)]
pub enum Place {
    /// The name stands there.
    Taken,
    /// The name does not, and this place is free for it.
    Free(usize),
    /// The name does not, and no place is free for it.
    Nowhere,
}

/// Searches a name from its slot on.
pub fn find(view: &ImageView, table: &[u32], slot: usize, name: &[u8]) -> Place
    requires small { slot ≤ length table.now }
    requires names { (v : ℕ) → slice_index table.now v ≤ length (image_of view.now).externals }
    ensures { Found (image_of view.now) table.now name.now slot result }
{
    for at in slot..table.len() {
        let entry = table[at];
        if entry == 0 {
            return Place::Free(at);
        }
        if same(name_at(view, entry - 1), name) {
            return Place::Taken;
        }
    }
    Place::Nowhere
}
