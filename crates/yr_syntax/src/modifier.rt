//! The modifiers of a string.

/// A modifier, as it is written. Alphabets are unescaped.
#[derive(Drop)]
pub enum Modifier {
    NoCase,
    Wide,
    Ascii,
    FullWord,
    /// `private`.
    Hidden,
    /// `xor` alone has all keys.
    Xor { low: i64, high: i64 },
    Base64(Option<Vec<u8>>),
    Base64Wide(Option<Vec<u8>>),
}

/// What a string is.
#[derive(Clone, Copy, Debug, PartialEq, Eq)]
pub enum StringKind {
    Text,
    Hex,
    Regex,
}
