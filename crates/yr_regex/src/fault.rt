//! Why a text is no regular expression.

use std::alloc::{AllocError, AllocFailed};
use thiserror::Error;

/// Why a text is no regular expression.
#[derive(Clone, Copy, Debug, PartialEq, Eq, Error)]
pub enum RegexFault {
    /// The text has no reading.
    #[error("no regular expression")]
    RegexSyntax,
    /// The quantifier or range at this place is the first that is not allowed.
    #[error("a quantifier or range that is not allowed at {0}")]
    RegexRange(u32),
    /// Quantifiers with a `?` and without stand together.
    #[error("greedy and ungreedy quantifiers")]
    MixedGreed,
    /// There was no memory.
    #[error("out of memory")]
    NoMemory,
}

impl From<AllocError> for RegexFault {
    ghost use Rattle.std.specs.Prelude.{◌≡◌};
    ghost use Rattle.yr_regex.specs.declared.fault.RegexFault.TheVariants as regex_fault;

    ghost from_gives = { λ _ e. e ≡ regex_fault.NoMemory };

    fn from(_e: AllocError) -> RegexFault {
        RegexFault::NoMemory
    }
}

impl<T: Drop> From<AllocFailed<T>> for RegexFault {
    ghost use Rattle.std.specs.Prelude.{◌≡◌};
    ghost use Rattle.yr_regex.specs.declared.fault.RegexFault.TheVariants as regex_fault;

    ghost from_gives = { λ _ e. e ≡ regex_fault.NoMemory };

    fn from(_e: AllocFailed<T>) -> RegexFault {
        RegexFault::NoMemory
    }
}
