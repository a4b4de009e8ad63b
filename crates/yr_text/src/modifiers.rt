//! Modifiers without faults.

/// What the modifiers of a string say. Alphabets stand here whole, the usual one too.
#[derive(Clone, Copy, Debug, PartialEq, Eq)]
pub struct Modifiers {
    pub nocase: bool,
    pub wide: bool,
    pub ascii: bool,
    /// `fullword`.
    pub full: bool,
    /// `private`.
    pub hidden: bool,
    /// The first and the last key.
    pub xor: Option<(u8, u8)>,
    pub base64: Option<[u8; 64]>,
    pub base64wide: Option<[u8; 64]>,
}
