//! Where tokens stand.

ghost use Rattle.std.specs.Prelude.{◌≡◌, ◌-◌, ◌<◌, length, slice_get, OnSome};
ghost use Rattle.yr_parser.specs.Spelling.{places_of};

use yr_lexer::{FileToken, Tokens};

/// The token of a number.
pub fn token_at(tokens: &Tokens, at: usize) -> Option<FileToken>
    ensures value { result ≡ slice_get tokens.now.tokens at }
    ensures bound { OnSome result (at < length tokens.now.tokens) }
{
    let list = tokens.tokens();
    if at < list.len() {
        Some(list[at])
    } else {
        None
    }
}

/// The line of the token from which so many are left.
pub fn line_at(tokens: &Tokens, left: usize) -> u32
    ensures { result ≡ (places_of tokens.now).line left }
{
    let at = tokens.tokens().len().saturating_sub(left);
    match token_at(tokens, at) {
        Some(found) => found.token.line,
        None => 0,
    }
}

/// The file of the token from which so many are left.
pub fn file_at(tokens: &Tokens, left: usize) -> u32
    ensures { result ≡ (places_of tokens.now).file left }
{
    let at = tokens.tokens().len().saturating_sub(left);
    match token_at(tokens, at) {
        Some(found) => found.file,
        None => 0,
    }
}
