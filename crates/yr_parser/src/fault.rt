//! Why nothing was read.

use std::alloc::{AllocError, AllocFailed};
use thiserror::Error;
use yr_base::NoMemory;

/// Why a part was not read.
#[derive(Clone, Copy, Debug, PartialEq, Eq)]
pub enum Fault {
    NoMemory,
    Syntax,
}

impl From<AllocError> for Fault {
    ghost use Rattle.std.specs.Prelude.{◌≡◌};
    ghost use Rattle.yr_parser.specs.declared.fault.Fault.TheVariants as fault;

    ghost from_gives = { λ _ e. e ≡ fault.NoMemory };

    fn from(_: AllocError) -> Fault {
        Fault::NoMemory
    }
}

impl<T: Drop> From<AllocFailed<T>> for Fault {
    ghost use Rattle.std.specs.Prelude.{◌≡◌};
    ghost use Rattle.yr_parser.specs.declared.fault.Fault.TheVariants as fault;

    ghost from_gives = { λ _ e. e ≡ fault.NoMemory };

    fn from(_: AllocFailed<T>) -> Fault {
        Fault::NoMemory
    }
}

impl From<NoMemory> for Fault {
    ghost use Rattle.std.specs.Prelude.{◌≡◌};
    ghost use Rattle.yr_parser.specs.declared.fault.Fault.TheVariants as fault;

    ghost from_gives = { λ _ e. e ≡ fault.NoMemory };

    fn from(_: NoMemory) -> Fault {
        Fault::NoMemory
    }
}

/// Why no declarations were read. Declarations are counted from 1; file and line are those of the first token that was not read.
#[derive(Clone, Copy, Debug, PartialEq, Eq, Error)]
pub enum ParseFault {
    /// No front of the remaining tokens is a declaration.
    #[error("declaration {declaration}: syntax")]
    Syntax {
        declaration: usize,
        file: u32,
        line: u32,
    },
    /// Brackets or prefix operators nest too deep before the first closing brace ends.
    #[error("declaration {declaration}: too deep")]
    TooDeep {
        declaration: usize,
        file: u32,
        line: u32,
    },
    #[error("out of memory")]
    NoMemory,
}

impl<T: Drop> From<AllocFailed<T>> for ParseFault {
    ghost use Rattle.std.specs.Prelude.{◌≡◌};
    ghost use Rattle.yr_parser.specs.declared.fault.ParseFault.TheVariants as parse_fault;

    ghost from_gives = { λ _ e. e ≡ parse_fault.NoMemory };

    fn from(_: AllocFailed<T>) -> ParseFault {
        ParseFault::NoMemory
    }
}
