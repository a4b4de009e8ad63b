//! What may be wrong with the modifiers of a string.

/// The faults of a list of modifiers. Where several hold, the earlier one counts.
#[derive(Clone, Copy, Debug, PartialEq, Eq, thiserror::Error)]
pub enum ModifierFault {
    /// One stands twice, whatever its argument.
    #[error("a modifier stands twice")]
    Repeated,
    /// One is not for strings of this kind.
    #[error("a modifier is not for this kind of string")]
    WrongKind,
    /// Two may not stand together.
    #[error("two modifiers exclude each other")]
    Excluded,
    /// The first key is above the last, or a key is no byte.
    #[error("the keys of xor are no range of bytes")]
    BadRange,
    /// An alphabet has not 64 bytes.
    #[error("an alphabet has not 64 bytes")]
    BadAlphabet,
}
