//! The moves of programs, and their rows.

ghost use Rattle.std.specs.Prelude.{◌≡◌, ◌<◌, ◌↔◌, ℕ, List, length, Some, IsTrue, slice_get};
ghost use Rattle.yr_rows.specs.Accepts.{HasByte};
ghost use Rattle.yr_rows.specs.Moves.{kind_of, move_by_kind, move_of, moves_in, row_of, sets_in};

use crate::numbers::number_at;

/// What a move asks of its place.
#[derive(Clone, Copy, Debug, PartialEq, Eq)]
pub enum Assertion {
    /// The place is the file's start.
    Start,
    /// The place is the file's end.
    End,
    /// A word begins or ends at the place.
    Edge,
    /// No word begins or ends at the place.
    NotEdge,
    /// A word of two bytes a letter begins or ends at the place.
    WideEdge,
    /// No word of two bytes a letter begins or ends at the place.
    WideNotEdge,
}

/// One move of a program. `next` and `other` name moves of the same program, `set` names a set.
#[derive(Clone, Copy, Debug, PartialEq, Eq)]
pub enum Move {
    /// The program accepts.
    Accept,
    /// Reads a byte of the set.
    Set { next: u32, set: u32 },
    /// Goes both ways.
    Fork { next: u32, other: u32 },
    /// Goes on where the assertion holds.
    Test { assertion: Assertion, next: u32 },
}

/// The row of a move as it stands in an image. A field that its kind does not use is 0.
#[derive(Clone, Copy, Debug, PartialEq, Eq)]
pub struct MoveRow {
    pub kind: u32,
    pub next: u32,
    pub other: u32,
    pub set: u32,
}

impl Assertion {
    /// The kind of the moves that test the assertion.
    pub fn kind(self) -> u32
        ensures { result ≡ kind_of self }
    {
        match self {
            Assertion::Start => 3,
            Assertion::End => 4,
            Assertion::Edge => 5,
            Assertion::NotEdge => 6,
            Assertion::WideEdge => 7,
            Assertion::WideNotEdge => 8,
        }
    }
}

impl Move {
    /// The row of the move.
    pub fn row(self) -> MoveRow
        ensures row { result ≡ row_of self }
        ensures comes_back { move_of result ≡ Some self }
    {
        let none = MoveRow {
            kind: 0,
            next: 0,
            other: 0,
            set: 0,
        };
        match self {
            Move::Accept => none,
            Move::Set { next, set } => MoveRow {
                kind: 1,
                next,
                set,
                ..none
            },
            Move::Fork { next, other } => MoveRow {
                kind: 2,
                next,
                other,
                ..none
            },
            Move::Test { assertion, next } => MoveRow {
                kind: assertion.kind(),
                next,
                ..none
            },
        }
    }
}

impl MoveRow {
    /// A row of moves by its place.
    #[inline]
    pub fn at(moves: &[u8], m: u32) -> MoveRow
        requires { m < length (moves_in moves.now) }
        ensures { slice_get (moves_in moves.now) m ≡ Some result }
    {
        let at = m as usize * 16;
        MoveRow {
            kind: number_at(moves, at),
            next: number_at(moves, at + 4),
            other: number_at(moves, at + 8),
            set: number_at(moves, at + 12),
        }
    }

    /// What the row says; None for an unknown kind. Fields that the kind does not use are not looked at.
    #[inline]
    pub fn read(self) -> Option<Move>
        ensures { result ≡ move_of self }
    {
        let next = self.next;
        let assertion = match self.kind {
            0 => return Some(Move::Accept),
            1 => return Some(Move::Set {
                next,
                set: self.set,
            }),
            2 => {
                return Some(Move::Fork {
                    next,
                    other: self.other,
                });
            }
            3 => Assertion::Start,
            4 => Assertion::End,
            5 => Assertion::Edge,
            6 => Assertion::NotEdge,
            7 => Assertion::WideEdge,
            8 => Assertion::WideNotEdge,
            _ => return None,
        };
        Some(Move::Test { assertion, next })
    }
}

/// How many rows of moves there are.
pub fn count_moves(moves: &[u8]) -> usize
    ensures { result ≡ length (moves_in moves.now) }
{
    moves.len() / 16
}

/// How many sets there are.
pub fn count_sets(sets: &[u8]) -> usize
    ensures { result ≡ length (sets_in sets.now) }
{
    sets.len() / 32
}

/// Whether a byte is in a set.
#[inline]
pub fn set_has(sets: &[u8], set: u32, byte: u8) -> bool
    requires { set < length (sets_in sets.now) }
    ensures { (bits : List ℕ) → slice_get (sets_in sets.now) set ≡ Some bits → IsTrue result ↔ HasByte bits byte }
{
    sets[set as usize * 32 + byte as usize / 8] >> (byte % 8) & 1 == 1
}
