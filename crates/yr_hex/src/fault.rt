//! Why a text is no hex string.

use std::alloc::{AllocError, AllocFailed};
use thiserror::Error;

/// Why a text is no hex string.
#[derive(Clone, Copy, Debug, PartialEq, Eq, Error)]
pub enum HexFault {
    /// The text has no reading.
    #[error("no hex string")]
    HexSyntax,
    /// The jump at this place is the first that breaks a rule.
    #[error("a jump that is not allowed at {0}")]
    HexJump(u32),
    /// There was no memory.
    #[error("out of memory")]
    NoMemory,
}

impl From<AllocError> for HexFault {
    ghost use Rattle.std.specs.Prelude.{◌≡◌};
    ghost use Rattle.yr_hex.specs.declared.fault.HexFault.TheVariants as hex_fault;

    ghost from_gives = { λ _ e. e ≡ hex_fault.NoMemory };

    fn from(_e: AllocError) -> HexFault {
        HexFault::NoMemory
    }
}

impl<T: Drop> From<AllocFailed<T>> for HexFault {
    ghost use Rattle.std.specs.Prelude.{◌≡◌};
    ghost use Rattle.yr_hex.specs.declared.fault.HexFault.TheVariants as hex_fault;

    ghost from_gives = { λ _ e. e ≡ hex_fault.NoMemory };

    fn from(_e: AllocFailed<T>) -> HexFault {
        HexFault::NoMemory
    }
}
