//! Ranges of code.

/// The rows of a rule's code.
#[derive(Clone, Copy, Debug)]
pub struct CodeRange {
    pub first: u32,
    pub rows: u32,
}
