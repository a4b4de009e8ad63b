//! Gathered rule files.

use yr_lexer::Tokens;

/// The tokens of a rule file and of all that it includes, and the namespace that they stand in.
#[derive(Drop)]
pub struct SourceUnit<'a> {
    pub space: &'a str,
    pub tokens: Tokens,
}
