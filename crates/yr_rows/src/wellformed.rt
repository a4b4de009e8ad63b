//! Whether the moves of a program are wellformed.

ghost use Rattle.std.specs.Prelude.{◌≡◌, ◌↔◌, length, IsTrue};
ghost use Rattle.yr_rows.specs.Moves.{AreWellformedMoves, IsWellformedMove, NamesAmong, moves_in, sets_in};

use crate::moves::{Move, MoveRow, count_moves, count_sets};

/// A program has no more moves than this.
pub const MOST_MOVES: usize = 65_536;

// Whether the moves that a move names are among so many, and its set is among these many.
fn names_among(v: Move, moves: usize, sets: usize) -> bool
    ensures { IsTrue result ↔ NamesAmong moves sets v }
{
    match v {
        Move::Accept => true,
        Move::Set { next, set } => (next as usize) < moves && (set as usize) < sets,
        Move::Fork { next, other } => (next as usize) < moves && (other as usize) < moves,
        Move::Test { next, .. } => (next as usize) < moves,
    }
}

// Whether a row says a move, leaves the other fields 0, and names what is there.
fn is_wellformed_move(row: MoveRow, moves: usize, sets: usize) -> bool
    ensures { IsTrue result ↔ IsWellformedMove moves sets row }
{
    match row.read() {
        Some(v) => v.row() == row && names_among(v, moves, sets),
        None => false,
    }
}

/// Whether these are the moves of a wellformed program beside these sets: it has a move and at most 65,536, each of a
/// known kind, with the fields that it does not use 0, and the moves and sets that it names are there.
pub fn are_wellformed_moves(moves: &[u8], sets: &[u8]) -> bool
    ensures { IsTrue result ↔ AreWellformedMoves (moves_in moves.now) (sets_in sets.now) }
{
    let count = count_moves(moves);
    let set_count = count_sets(sets);
    if count == 0 || count > MOST_MOVES {
        return false;
    }
    for m in 0..count {
        if !is_wellformed_move(MoveRow::at(moves, m as u32), count, set_count) {
            return false;
        }
    }
    true
}
