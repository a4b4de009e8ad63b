//! The turns of an open loop: the present one, and those that are left.

/// What a turn gives its body: the value of the loop's variable, or the number of the current string.
#[derive(Clone, Copy, Debug, PartialEq, Eq)]
pub enum Present {
    Number(i64),
    Undefined,
    Member(u32),
}

/// The turns after the present one, so many.
#[derive(Clone, Copy, Debug, PartialEq, Eq)]
pub enum Left {
    /// The numbers that follow a number.
    Numbers { after: i64, count: u64 },
    /// Items of the loop's own list.
    Items { from: usize, count: usize },
    /// The members in list rows of the image.
    Members { row: u64, count: u64 },
}

/// What comes after a turn: the next one, which begins at a place, or what follows the loop, with its answer.
#[derive(Clone, Copy, Debug, PartialEq, Eq)]
pub enum Turned {
    Again { place: u32 },
    Over { end: u32, kept: u32, answer: bool },
}
