//! A program as the rows of its moves and sets.

ghost use Rattle.std.specs.Prelude.{◌≡◌, ◌%◌, length};

use yr_rows::{Move, MoveRow, are_wellformed_moves, count_moves, set_has};

/// A program: the rows of its moves, and the sets that these name.
#[derive(Clone, Copy)]
pub struct ProgramRows<'a> {
    moves: &'a [u8],
    sets: &'a [u8],
    ghost whole_moves: { length moves.now % 16 ≡ 0 },
    ghost whole_sets: { length sets.now % 32 ≡ 0 },
}

impl<'a> ProgramRows<'a> {
    ghost use Rattle.std.specs.Prelude.{◌≡◌, ◌%◌, ◌<◌, ◌↔◌, ℕ, List, length, Some, IsTrue, slice_get};
    ghost use Rattle.yr_rows.specs.Moves.{NamesAmong, moves_in, sets_in, move_at};
    ghost use Rattle.yr_rows.specs.Accepts.{HasByte};
    ghost use Rattle.yr_moves.specs.Programs.{moves_of, sets_of, IsWellformed};

    /// The program that these bytes are, for rows that anybody made.
    pub fn over(moves: &'a [u8], sets: &'a [u8]) -> ProgramRows<'a>
        requires moves { length moves.now % 16 ≡ 0 }
        requires sets { length sets.now % 32 ≡ 0 }
        ensures moves { moves_of result ≡ moves_in moves.now }
        ensures sets { sets_of result ≡ sets_in sets.now }
    {
        ProgramRows { moves, sets }
    }

    /// How many moves there are.
    pub fn len(&self) -> usize
        ensures { result ≡ length (moves_of self.now) }
    {
        count_moves(self.moves)
    }

    /// Whether the rows are wellformed as the only program.
    pub fn is_wellformed(&self) -> bool
        ensures { IsTrue result ↔ IsWellformed self.now }
    {
        are_wellformed_moves(self.moves, self.sets)
    }

    /// A move by its place.
    #[inline]
    pub fn move_at(&self, m: u32) -> Move
        requires wellformed { IsWellformed self.now }
        requires inside { m < length (moves_of self.now) }
        ensures is { move_at (moves_of self.now) m ≡ Some result }
        ensures names { NamesAmong (length (moves_of self.now)) (length (sets_of self.now)) result }
    {
        match MoveRow::at(self.moves, m).read() {
            Some(v) => v,
            None => unreachable!(),
        }
    }

    /// Whether a byte is in a set of the program.
    #[inline]
    pub fn set_has(&self, set: u32, byte: u8) -> bool
        requires { set < length (sets_of self.now) }
        ensures { (bits : List ℕ) → slice_get (sets_of self.now) set ≡ Some bits → IsTrue result ↔ HasByte bits byte }
    {
        set_has(self.sets, set, byte)
    }
}
