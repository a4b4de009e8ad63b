//! Sides of splits.

ghost use Rattle.std.specs.Prelude.{◌≡◌, ◌≤◌, Bool, length, IfOk};
ghost use Rattle.yr_pattern.specs.Tree.{tree_of};
ghost use Rattle.yr_pattern.specs.Sizes.{size_of};
ghost use Rattle.yr_atoms.specs.Splits.{piece_size, Literal, Shape};
ghost use Rattle.yr_atoms.specs.Coded.{piece_of};
ghost use Rattle.yr_splits.specs.Filling.{PutsSide};

use std::alloc::Global;
use yr_atoms::Piece;
use yr_base::NoMemory;
use yr_draft::ImageDraft;
use yr_pattern::Pattern;
use yr_program::assemble;

/// The fields of a side, as the row of a split has them.
#[derive(Clone, Copy)]
pub struct Side {
    /// 0 for nothing, 1 for a text of the pool, 2 for a program.
    pub kind: u8,
    /// The text's place, or the program's number.
    pub place: u32,
    /// The text's length.
    pub length: u32,
}

/// Puts a literal into the pool.
fn put_literal(draft: &mut ImageDraft, bytes: &[u8]) -> Result<Side, NoMemory>
    requires { length bytes.now ≤ 65535 }
    ensures { IfOk result (λ side. (backwards : Bool)
        → PutsSide draft.old draft.new backwards (Literal bytes.now) side.kind side.place side.length) }
{
    let place = draft.put_text(bytes)?;
    Ok(Side {
        kind: 1,
        place,
        length: bytes.len() as u32,
    })
}

/// Puts the program of a pattern.
fn put_shape(
    alloc: Global,
    draft: &mut ImageDraft,
    pattern: &Pattern,
    backwards: bool,
) -> Result<Side, NoMemory>
    requires { size_of (tree_of pattern.now) ≤ 65535 }
    ensures { IfOk result (λ side.
        PutsSide draft.old draft.new backwards (Shape (tree_of pattern.now)) side.kind side.place side.length) }
{
    let program = assemble(alloc, pattern, backwards)?;
    let number = draft.put_program(&program)?;
    Ok(Side {
        kind: 2,
        place: number,
        length: 0,
    })
}

/// Puts what a side needs: nothing, a text, or a program that reads in the side's direction.
pub fn put_side(
    alloc: Global,
    draft: &mut ImageDraft,
    piece: &Piece,
    backwards: bool,
) -> Result<Side, NoMemory>
    requires { piece_size (piece_of piece.now) ≤ 65535 }
    ensures { IfOk result (λ side.
        PutsSide draft.old draft.new backwards (piece_of piece.now) side.kind side.place side.length) }
{
    match piece {
        Piece::Nothing => Ok(Side {
            kind: 0,
            place: 0,
            length: 0,
        }),
        Piece::Literal(bytes) => {
            let side = put_literal(draft, bytes)?;
            Ok(side)
        }
        Piece::Shape(pattern) => put_shape(alloc, draft, pattern, backwards),
    }
}
