//! Why a text has no tokens, and why files could not be gathered.

use std::alloc::{AllocError, AllocFailed};
use thiserror::Error;

/// What is wrong where a token should begin, in the order in which it is tested.
#[derive(Clone, Copy, Debug, PartialEq, Eq)]
pub enum FaultRow {
    Unclosed,
    BadEscape,
    Float,
    BadByte,
    TooLargeNumber,
    LongName,
}

/// Why a text has no tokens, with the line of the place.
#[derive(Clone, Copy, Debug, PartialEq, Eq, Error)]
pub enum LexFault {
    /// A text, an expression, a hex literal or a comment has no end.
    #[error("line {0}: no end")]
    Unclosed(u32),
    /// A closed text has a `\` that begins no escape.
    #[error("line {0}: no escape")]
    BadEscape(u32),
    /// Digits, a dot and a digit: numbers are whole.
    #[error("line {0}: a number that is not whole")]
    Float(u32),
    /// No token begins here, or what begins with a digit is no number.
    #[error("line {0}: no token")]
    BadByte(u32),
    /// A number is above the greatest of 64 signed bits.
    #[error("line {0}: a number that is too large")]
    TooLargeNumber(u32),
    /// A word or a name has more than 128 bytes.
    #[error("line {0}: a name that is too long")]
    LongName(u32),
    /// There was no memory.
    #[error("out of memory")]
    NoMemory,
}

impl From<AllocError> for LexFault {
    ghost use Rattle.std.specs.Prelude.{◌≡◌};
    ghost use Rattle.yr_lexer.specs.declared.fault.LexFault.TheVariants as lex_fault;

    ghost from_gives = { λ _ e. e ≡ lex_fault.NoMemory };

    fn from(_e: AllocError) -> LexFault {
        LexFault::NoMemory
    }
}

impl<T: Drop> From<AllocFailed<T>> for LexFault {
    ghost use Rattle.std.specs.Prelude.{◌≡◌};
    ghost use Rattle.yr_lexer.specs.declared.fault.LexFault.TheVariants as lex_fault;

    ghost from_gives = { λ _ e. e ≡ lex_fault.NoMemory };

    fn from(_e: AllocFailed<T>) -> LexFault {
        LexFault::NoMemory
    }
}

impl From<AllocError> for GatherFault {
    ghost use Rattle.std.specs.Prelude.{◌≡◌};
    ghost use Rattle.yr_lexer.specs.declared.fault.GatherFault.TheVariants as gather_fault;

    ghost from_gives = { λ _ e. e ≡ gather_fault.NoMemory };

    fn from(_e: AllocError) -> GatherFault {
        GatherFault::NoMemory
    }
}

impl<T: Drop> From<AllocFailed<T>> for GatherFault {
    ghost use Rattle.std.specs.Prelude.{◌≡◌};
    ghost use Rattle.yr_lexer.specs.declared.fault.GatherFault.TheVariants as gather_fault;

    ghost from_gives = { λ _ e. e ≡ gather_fault.NoMemory };

    fn from(_e: AllocFailed<T>) -> GatherFault {
        GatherFault::NoMemory
    }
}

/// Why files could not be gathered. Files go by their names, includes by their lines.
#[derive(Debug, Drop, Error)]
pub enum GatherFault {
    /// A file has no tokens.
    #[error("{file}: {fault}")]
    Lex {
        file: String,
        fault: LexFault,
    },
    /// A file could not be read.
    #[error("cannot read {name}")]
    Read {
        name: String,
    },
    /// The name in an include is empty or is no text.
    #[error("{file}:{line}: no file name")]
    Path {
        file: String,
        line: u32,
    },
    /// An include names a file that is still being gathered.
    #[error("{file}:{line}: {name} includes itself")]
    Cycle {
        file: String,
        line: u32,
        name: String,
    },
    /// An include stands too deep.
    #[error("{file}:{line}: {name} stands too deep")]
    Depth {
        file: String,
        line: u32,
        name: String,
    },
    /// A file is longer than what is left of the limit.
    #[error("{name}: too long")]
    TextTooLong {
        name: String,
    },
    /// There was no memory.
    #[error("out of memory")]
    NoMemory,
}
