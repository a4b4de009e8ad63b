//! The next token, as the cursor hands it out.

use crate::sign::Sign;
use yr_syntax::{Infix, Reader};

/// A token by its form. Names stand without their sign, texts without their quotes, expressions without their slashes.
#[derive(Clone, Copy)]
pub enum Lexeme<'a> {
    Word(&'a [u8]),
    Number(i64),
    /// With its escapes.
    Text(&'a [u8]),
    Regex {
        text: &'a [u8],
        nocase: bool,
        dot_all: bool,
    },
    Hex(&'a [u8]),
    StringName(&'a [u8]),
    StringWild(&'a [u8]),
    CountName(&'a [u8]),
    PlaceName(&'a [u8]),
    LengthName(&'a [u8]),
    Read(Reader),
    Flag(bool),
    Operator(Infix),
    Sign(Sign),
}
