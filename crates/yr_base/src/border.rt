//! What must stand beside a span of a whole word.

/// What must stand beside a span: anything, no ASCII letter or digit, or no such letter or digit of two bytes.
#[derive(Clone, Copy, Debug, PartialEq, Eq)]
pub enum Border {
    /// Any byte may stand there.
    Free,
    /// No letter or digit may stand there.
    Plain,
    /// No letter or digit with a byte 00 after it may stand there.
    Wide,
}
