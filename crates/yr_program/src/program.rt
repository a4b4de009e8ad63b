//! Programs as rows of bytes.

ghost use Rattle.std.specs.Prelude.{◌≡◌, ◌%◌, length};

use yr_moves::ProgramRows;

/// A program: its moves in rows of 16 bytes, and the sets that these name in rows of 32, as they stand in an image.
#[derive(Debug, PartialEq, Eq, Drop)]
pub struct Program {
    pub moves: Vec<u8>,
    pub sets: Vec<u8>,
    ghost whole_moves: { length moves.items % 16 ≡ 0 },
    ghost whole_sets: { length sets.items % 32 ≡ 0 },
}

impl Program {
    ghost use Rattle.std.specs.Prelude.{◌≡◌};
    ghost use Rattle.yr_moves.specs.Programs.{moves_of, sets_of};
    ghost use Rattle.yr_program.specs.Programs.{program_moves, program_sets};

    /// The rows, lent to the engine.
    pub fn rows(&self) -> ProgramRows<'_>
        ensures moves { moves_of result ≡ program_moves self.now }
        ensures sets { sets_of result ≡ program_sets self.now }
    {
        ProgramRows::over(&self.moves, &self.sets)
    }
}
