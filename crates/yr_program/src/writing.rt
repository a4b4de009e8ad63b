//! Moves written as rows.

ghost use Rattle.std.specs.Prelude.{◌≡◌, ◌+◌, ◌*◌, ◌/◌, ◌%◌, ◌≤◌, ◌<◌, ◌^◌, List, [], ◌∷◌, ◌++◌, length, map, IfOk, OnOk};
ghost use Rattle.yr_rows.specs.Rows.{number_at};
ghost use Rattle.yr_rows.specs.Moves.{move_row};
ghost use Rattle.yr_program.specs.Acts.{Act};
ghost use Rattle.yr_program.specs.Drafts.{act_of, numbered, set_bytes};
ghost use Rattle.yr_program.specs.Written.{IsWritten, count_reads};

use crate::draft::DraftMove;
use crate::program::Program;
use std::alloc::Global;
use yr_base::NoMemory;
use yr_rows::{Move, MoveRow};

// A number in four bytes, the lowest first.
fn number_bytes(n: u32) -> [u8; 4]
    ensures { number_at result 0 ≡ n }
{
    n.to_le_bytes()
}

// The 16 bytes of a row.
fn row_bytes(row: MoveRow) -> [u8; 16]
    ensures row { move_row result ≡ row }
    ensures wide { length result ≡ 16 }
{
    let [a, b, c, d] = number_bytes(row.kind);
    let [e, f, g, h] = number_bytes(row.next);
    let [i, j, k, l] = number_bytes(row.other);
    let [m, n, o, p] = number_bytes(row.set);
    [a, b, c, d, e, f, g, h, i, j, k, l, m, n, o, p]
}

// The number that the next set gets: how many sets there are.
fn next_set(sets: &[u8]) -> u32
    requires { length sets.now / 32 < 2 ^ 32 }
    ensures { result ≡ length sets.now / 32 }
{
    (sets.len() / 32) as u32
}

// The move, with this number for its set.
fn number_set(one: &DraftMove, number: u32) -> Move
    ensures { result ≡ numbered one.now number }
{
    match *one {
        DraftMove::Accept => Move::Accept,
        DraftMove::Set { next, .. } => Move::Set { next, set: number },
        DraftMove::Fork { next, other } => Move::Fork { next, other },
        DraftMove::Test { assertion, next } => Move::Test { assertion, next },
    }
}

// One more set, where the move has one.
fn write_set(one: &DraftMove, sets: &mut Vec<u8>) -> Result<(), NoMemory>
    ensures bytes { OnOk result (sets.new.items ≡ sets.old.items ++ set_bytes one.now) }
    ensures wide { length (set_bytes one.now) ≡ count_reads (act_of one.now ∷ []) * 32 }
{
    if let DraftMove::Set { set, .. } = one {
        sets.extend_from_slice(&set.bits)?;
    }
    Ok(())
}

// One more move: its row, and its set where it has one.
fn write_move(one: &DraftMove, moves: &mut Vec<u8>, sets: &mut Vec<u8>) -> Result<(), NoMemory>
    requires { length sets.old.items / 32 < 2 ^ 32 }
    ensures { OnOk result ((acts : List Act) → IsWritten moves.old.items sets.old.items acts
        → IsWritten moves.new.items sets.new.items (acts ++ act_of one.now ∷ [])) }
{
    let number = next_set(sets);
    write_set(one, sets)?;
    let row = number_set(one, number).row();
    moves.extend_from_slice(&row_bytes(row))?;
    Ok(())
}

/// The rows of these moves.
pub fn write(alloc: Global, draft: &[DraftMove]) -> Result<Program, NoMemory>
    requires { length draft.now ≤ 65536 }
    ensures { IfOk result (λ program. IsWritten program.moves.items program.sets.items (map act_of draft.now)) }
{
    let mut moves = Vec::new(alloc);
    let mut sets = Vec::new(alloc);
    for one in draft {
        write_move(one, &mut moves, &mut sets)?;
    }
    Ok(Program { moves, sets })
}
