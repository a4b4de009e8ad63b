//! The programs of an image.

ghost use Rattle.std.specs.Prelude.{◌≡◌, ℕ, ◌+◌, ◌<◌, ◌≤◌, length, take, drop};
ghost use Rattle.yr_image.specs.Views.{shown_bytes, image_of};
ghost use Rattle.yr_machine.specs.Wellformed.{IsWellformed};
ghost use Rattle.yr_machine.specs.Budget.{moves_count};
ghost use Rattle.yr_hits.specs.Programs.{IsProgramOf};

use yr_image::ImageView;
use yr_moves::ProgramRows;

/// A program of the image by its number, read in place.
pub fn program<'a>(view: &ImageView<'a>, k: u32) -> ProgramRows<'a>
    requires wellformed { IsWellformed (shown_bytes view.now) }
    requires inside { k < length (image_of view.now).programs }
    ensures { IsProgramOf (image_of view.now) k result }
{
    let row = view.program(k);
    let first = 16 * row.first_move as usize;
    let moves = part(view.bytes_of(7), first, 16 * row.moves as usize);
    ProgramRows::over(moves, view.bytes_of(5))
}

/// The bytes of a range.
pub(crate) fn part<'a>(bytes: &'a [u8], first: usize, size: usize) -> &'a [u8]
    requires { first + size ≤ length bytes.now }
    ensures { result.now ≡ take size (drop first bytes.now) }
{
    &bytes[first..first + size]
}

/// The most moves that a program of the image has.
pub fn most_moves(view: &ImageView<'_>) -> u32
    requires { IsWellformed (shown_bytes view.now) }
    ensures { (k : ℕ) → moves_count (image_of view.now) k ≤ result }
{
    let mut most = 0;
    for k in 0..view.rows(6) {
        most = most.max(view.program(k).moves);
    }
    most
}
