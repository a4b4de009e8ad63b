//! The strings of a rule.

use crate::modifier::{Modifier, StringKind};

/// A string. The name has no sign, and is empty where the string is anonymous.
#[derive(Drop)]
pub struct StringDecl {
    pub name: Vec<u8>,
    pub body: StringBody,
    pub modifiers: Vec<Modifier>,
    /// The line of its name.
    pub line: u32,
}

/// What a string looks for.
#[derive(Drop)]
pub enum StringBody {
    /// The text, unescaped.
    Text(Vec<u8>),
    /// What stands between the braces.
    Hex(Vec<u8>),
    Regex(RegexText),
}

impl StringBody {
    ghost use Rattle.std.specs.Prelude.{◌≡◌};
    ghost use Rattle.yr_syntax.specs.Declaration.{body_of, kind_of};

    pub fn kind(&self) -> StringKind
        ensures { result ≡ kind_of (body_of self.now) }
    {
        match self {
            StringBody::Text(_) => StringKind::Text,
            StringBody::Hex(_) => StringKind::Hex,
            StringBody::Regex(_) => StringKind::Regex,
        }
    }
}

/// A regular expression: what stands between the slashes, with its escapes, and the flags `i` and `s`.
#[derive(Drop)]
pub struct RegexText {
    pub text: Vec<u8>,
    pub nocase: bool,
    pub dot_all: bool,
}
