//! Operators and readers.

/// An operator before its operand.
#[derive(Clone, Copy, Debug, PartialEq, Eq)]
pub enum PrefixOp {
    Minus,
    Flip,
    Not,
    Defined,
}

/// An operator between two operands.
#[derive(Clone, Copy, Debug, PartialEq, Eq)]
pub enum Infix {
    Or,
    And,
    Equal,
    NotEqual,
    Contains,
    IContains,
    StartsWith,
    IStartsWith,
    EndsWith,
    IEndsWith,
    IEquals,
    Less,
    LessOrEqual,
    Greater,
    GreaterOrEqual,
    BitOr,
    BitXor,
    BitAnd,
    ShiftLeft,
    ShiftRight,
    Add,
    Subtract,
    Multiply,
    Divide,
    Remainder,
}

/// A reader of a number in the file, with its lowest byte first, or its highest in the `Be` forms.
#[derive(Clone, Copy, Debug, PartialEq, Eq)]
pub enum Reader {
    Int8,
    Int16,
    Int32,
    Uint8,
    Uint16,
    Uint32,
    Int8Be,
    Int16Be,
    Int32Be,
    Uint8Be,
    Uint16Be,
    Uint32Be,
}
