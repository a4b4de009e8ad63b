//! Tokens of a rule file.

/// The kind of a token, with the value of a number and the flags of an expression.
#[derive(Clone, Copy, Debug, PartialEq, Eq)]
pub enum TokenKind {
    Word,
    Reserved,
    StringName,
    StringWild,
    CountName,
    PlaceName,
    LengthName,
    Number(i64),
    Text,
    Regex { nocase: bool, dot_all: bool },
    Hex,
    Sign,
}

/// A token of a text: the bytes from `from` up to `to`, on the line where it begins.
#[derive(Clone, Copy, Debug, PartialEq, Eq)]
pub struct Token {
    pub kind: TokenKind,
    pub line: u32,
    pub from: u32,
    pub to: u32,
}
