//! Files that were read, and tokens in them.

/// A file that was read.
#[derive(Debug, Drop)]
pub struct SourceFile {
    pub name: String,
    pub text: Vec<u8>,
}

/// A token of the file of this number, in the order of reading.
#[derive(Clone, Copy, Debug, PartialEq, Eq)]
pub struct FileToken {
    pub file: u32,
    pub token: crate::token::Token,
}
