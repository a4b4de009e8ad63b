//! Patterns of bytes.

use crate::byte_set::ByteSet;

/// A pattern of bytes, for hex strings and regular expressions.
#[derive(Debug, PartialEq, Eq, Drop)]
pub enum Pattern {
    /// No byte.
    Empty,
    /// One byte of a set.
    One(ByteSet),
    /// Each member, one after the other.
    Seq(Vec<Pattern>),
    /// One of the branches.
    Alt(Vec<Pattern>),
    /// `min` or more, at most `max` where it is there.
    Rep {
        inner: Box<Pattern>,
        min: u32,
        max: Option<u32>,
    },
    /// The start of the file.
    Start,
    /// The end of the file.
    End,
    /// A place where a word begins or ends.
    Edge,
    /// Any other place.
    NotEdge,
    /// A place where a word of two bytes a letter begins or ends.
    WideEdge,
    /// Any other place.
    WideNotEdge,
}
