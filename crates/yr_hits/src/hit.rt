//! A hit of a split in a file, and its ends.

ghost use Rattle.std.specs.Prelude.{◌≡◌, ◌<◌, ◌≤◌, ◌^◌, length, Some, slice_get};
ghost use Rattle.yr_image.specs.Views.{shown_bytes, image_of};
ghost use Rattle.yr_image.specs.declared.rows.StringRow.{StringRow};
ghost use Rattle.yr_machine.specs.ImageMatches.{border_of, is_greatest};
ghost use Rattle.yr_machine.specs.Wellformed.{IsWellformed};
ghost use Rattle.yr_hits.specs.Spans.{IsGoodHit, HasAtomWithin};

use yr_base::Border;
use yr_image::{ImageView, SplitRow};

/// A hit of a split after the first `at` bytes of a file.
#[derive(Clone, Copy)]
pub struct Hit<'a> {
    pub view: &'a ImageView<'a>,
    pub file: &'a [u8],
    pub row: SplitRow,
    pub border: Border,
    pub greatest: bool,
    pub at: usize,
}

/// The best ends of a hit: from the atom's end on, and past it, which is asked where the atom is empty.
#[derive(Clone, Copy)]
pub struct Ends {
    pub near: Option<u32>,
    pub far: Option<u32>,
}

// The border of a split.
fn border_by(number: u8) -> Border
    requires { number ≤ 2 }
    ensures { border_of number ≡ Some result }
{
    match number {
        0 => Border::Free,
        1 => Border::Plain,
        _ => Border::Wide,
    }
}

/// A hit of a split after the first `at` bytes.
pub fn hit_of<'a>(view: &'a ImageView<'a>, file: &'a [u8], split: u32, at: usize) -> Hit<'a>
    requires wellformed { IsWellformed (shown_bytes view.now) }
    requires small { length file.now ≤ 2 ^ 28 }
    requires split { split < length (image_of view.now).splits }
    requires at { at ≤ length file.now }
    requires atom { HasAtomWithin (image_of view.now) at split }
    ensures good { IsGoodHit result }
    ensures view { result.view.now ≡ view.now }
    ensures file { result.file.now ≡ file.now }
    ensures at { result.at ≡ at }
    ensures row { slice_get (image_of view.now).splits split ≡ Some result.row }
    ensures greatest { (string : StringRow) → slice_get (image_of view.now).strings result.row.string ≡ Some string
        → result.greatest ≡ is_greatest (image_of view.now) file.now string }
{
    let row = view.split(split);
    let flags = view.string(row.string).flags;
    Hit {
        view,
        file,
        row,
        border: border_by(row.border),
        greatest: flags / 2 % 2 == 1,
        at,
    }
}
