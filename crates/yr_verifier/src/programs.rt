//! The check of programs.

ghost use Rattle.std.specs.Prelude.{◌≡◌, ◌↔◌, ◌<◌, ◌≤◌, ◌+◌, ◌*◌, take, drop, IsTrue, length};
ghost use Rattle.yr_rows.specs.Moves.{AreWellformedMoves, IsWellformedProgram, moves_in, program_moves};
ghost use Rattle.yr_image.specs.Views.{image_of, shown_bytes};
ghost use Rattle.yr_machine.specs.Rows.{end_before};
ghost use Rattle.yr_machine.specs.Automaton.{moves_end, IsProgram, ProgramPasses};
ghost use Rattle.yr_verifier.specs.Firsts.{Reaches, Checked};

use crate::counting::count_programs;
use crate::rows::end_of;
use yr_image::{ImageFault, ImageView, ProgramRow};
use yr_rows::{are_wellformed_moves, count_moves};

fn moves_before(view: &ImageView, k: u32) -> u64
    requires { k ≤ length (image_of view.now).programs }
    ensures { result ≡ end_before moves_end (image_of view.now).programs k }
{
    if k == 0 {
        return 0;
    }
    let row = view.program(k - 1);
    end_of(row.first_move, row.moves)
}

// The rows of so many moves from the first on.
fn range(moves: &[u8], first: u32, count: u32) -> &[u8]
    requires { first + count ≤ length (moves_in moves.now) }
    ensures { moves_in result.now ≡ program_moves first count (moves_in moves.now) }
{
    part(moves, 16 * first as usize, 16 * count as usize)
}

// So many bytes from a place on.
fn part(bytes: &[u8], start: usize, count: usize) -> &[u8]
    requires { start + count ≤ length bytes.now }
    ensures { result.now ≡ take count (drop start bytes.now) }
{
    &bytes[start..start + count]
}

// Whether a program lies in the moves, and is wellformed.
fn is_wellformed(view: &ImageView, row: &ProgramRow) -> bool
    ensures { IsTrue result ↔ IsWellformedProgram row.now.first_move row.now.moves (image_of view.now).moves (image_of view.now).sets }
{
    let moves = view.bytes_of(7);
    if end_of(row.first_move, row.moves) > count_moves(moves) as u64 {
        return false;
    }
    are_wellformed_moves(range(moves, row.first_move, row.moves), view.bytes_of(5))
}

fn is_program(view: &ImageView, k: u32, row: &ProgramRow) -> bool
    requires { k ≤ length (image_of view.now).programs }
    ensures { IsTrue result ↔ IsProgram (image_of view.now) k row.now }
{
    if u64::from(row.first_move) != moves_before(view, k) {
        return false;
    }
    if u64::from(k) + 1 == u64::from(count_programs(view))
        && end_of(row.first_move, row.moves) != count_moves(view.bytes_of(7)) as u64
    {
        return false;
    }
    is_wellformed(view, row)
}

// Whether program k passes, or is not there. Without programs there are no moves.
fn program_passes(view: &ImageView, k: u32) -> bool
    ensures { IsTrue result ↔ ProgramPasses (image_of view.now) k }
{
    if k < count_programs(view) {
        is_program(view, k, &view.program(k))
    } else {
        k > 0 || count_moves(view.bytes_of(7)) == 0
    }
}

fn at_least_one(n: u32) -> u32
    ensures enough { n ≤ result }
    ensures some { 0 < result }
{
    if n == 0 { 1 } else { n }
}

/// The ninth check.
pub fn check_programs(view: &ImageView) -> Result<(), ImageFault>
    requires { Reaches (shown_bytes view.now) 9 0 }
    ensures { Checked (shown_bytes view.now) 10 result }
{
    for k in 0..at_least_one(count_programs(view)) {
        if !program_passes(view, k) {
            return Err(ImageFault::ProgramBad(k));
        }
    }
    Ok(())
}
