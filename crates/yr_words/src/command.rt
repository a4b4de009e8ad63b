//! The commands.

use crate::value::Given;

/// What a scan is asked to show beside the names of rules.
#[derive(Clone, Copy, Debug, PartialEq, Eq)]
pub struct Flags {
    pub strings: bool,
    pub tags: bool,
    pub meta: bool,
    /// The rules that do not hold.
    pub negate: bool,
    /// Only their number.
    pub count: bool,
    /// The namespaces.
    pub spaces: bool,
    /// The number of hits.
    pub stats: bool,
}

/// A rule file, and the namespace that its rules stand in.
#[derive(Clone, Copy, Debug, PartialEq, Eq)]
pub struct Source<'a> {
    pub space: &'a str,
    pub file: &'a str,
}

/// What the words ask for. Values stand in the order of their words.
#[derive(Debug, Drop)]
pub enum Command<'a> {
    Scan {
        flags: Flags,
        sources: Vec<Source<'a>>,
        target: &'a str,
        givens: Vec<Given<'a>>,
    },
    /// A scan by an image.
    ScanImage {
        flags: Flags,
        image: &'a str,
        target: &'a str,
        givens: Vec<Given<'a>>,
    },
    Compile {
        sources: Vec<Source<'a>>,
        output: &'a str,
        givens: Vec<Given<'a>>,
    },
    Check {
        sources: Vec<Source<'a>>,
        givens: Vec<Given<'a>>,
    },
    Work {
        number: u64,
        size: u32,
    },
}
