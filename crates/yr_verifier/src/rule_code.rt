//! The rows of a rule's code, read in place.

ghost use Rattle.std.specs.Prelude.{◌≡◌, ◌+◌, ◌<◌, ◌≤◌, ◌^◌, length, min};
ghost use Rattle.yr_image.specs.Views.{image_of};

use yr_image::{CodeRow, ImageView};

/// The code of a rule: a range of its image's code.
#[derive(Clone, Copy)]
pub struct Code<'a> {
    pub view: ImageView<'a>,
    pub rule: u32,
    pub first: u32,
    pub rows: u32,
    ghost inside: { first + rows ≤ length (image_of view).code },
    ghost small: { first + rows < 2 ^ 32 },
}

fn least(a: u32, b: u32) -> u32
    ensures { result ≡ min a b }
{
    if a < b { a } else { b }
}

impl<'a> Code<'a> {
    ghost use Rattle.std.specs.Prelude.{◌≡◌, ◌<◌, ◌+◌, ◌≤◌, Some, slice_get, length, take, drop};
    ghost use Rattle.yr_image.specs.Views.{image_of};
    ghost use Rattle.yr_verifier.specs.Rows.{rows_shown};

    /// So many rows from the first on, and those alone that the image has.
    pub fn of(view: ImageView<'a>, rule: u32, first: u32, rows: u32) -> Code<'a>
        ensures shown { rows_shown result ≡ take rows (drop first (image_of view.entry).code) }
        ensures same { image_of result.view ≡ image_of view.entry }
        ensures number { result.rule ≡ rule }
    {
        let all = view.rows(12);
        let first = least(first, all);
        let rows = least(rows, all - first);
        Code {
            view,
            rule,
            first,
            rows,
        }
    }

    /// How many rows there are.
    pub fn count(&self) -> u32
        ensures { result ≡ length (rows_shown self.now) }
    {
        self.rows
    }

    /// The row at a place.
    pub fn row(&self, place: u32) -> CodeRow
        requires { place < length (rows_shown self.now) }
        ensures { slice_get (rows_shown self.now) place ≡ Some result }
    {
        self.view.code(self.first + place)
    }

    /// The row at a place, if there is one.
    pub fn get(&self, place: u32) -> Option<CodeRow>
        ensures { result ≡ slice_get (rows_shown self.now) place }
    {
        if place < self.count() {
            Some(self.row(place))
        } else {
            None
        }
    }
}
