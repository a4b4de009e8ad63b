//! Values of conditions, and truths of rules.

ghost use Rattle.std.specs.Prelude.{◌≤◌};

/// Whether a rule's condition holds.
#[derive(Clone, Copy, Debug, PartialEq, Eq)]
pub enum Truth {
    No,
    Yes,
}

/// The kind of a value that is there.
#[derive(Clone, Copy, Debug, PartialEq, Eq)]
pub enum Kind {
    Number,
    Flag,
    Text,
}

/// A text of at most 64 bytes that a value carries itself: the first `len` of `bytes`.
#[derive(Clone, Copy, Debug)]
pub struct ShortText {
    pub bytes: [u8; 64],
    pub len: u8,
    ghost few: { len ≤ 64 },
}

/// A value of a condition. A text is lent, or short and carried along.
#[derive(Clone, Copy, Debug, Default)]
pub enum Value<'a> {
    #[default]
    Undefined,
    Number(i64),
    Flag(bool),
    Text(&'a [u8]),
    Short(ShortText),
}
