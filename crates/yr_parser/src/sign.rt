//! Signs and reserved words.

ghost use Rattle.std.specs.Prelude.{◌≡◌, true};
ghost use Rattle.yr_parser.specs.Input as spec;

/// A sign or a reserved word that is no operator between two operands, no reader and no truth value.
#[derive(Clone, Copy, Debug, PartialEq, Eq)]
pub enum Sign {
    All,
    Any,
    Ascii,
    At,
    Base64,
    Base64Wide,
    Condition,
    Defined,
    EntryPoint,
    FileSize,
    For,
    FullWord,
    Global,
    Import,
    In,
    Include,
    Matches,
    Meta,
    NoCase,
    None,
    Not,
    Of,
    Private,
    Rule,
    Strings,
    Them,
    Wide,
    Xor,
    OpenBrace,
    CloseBrace,
    Open,
    Close,
    OpenBracket,
    CloseBracket,
    Colon,
    Comma,
    Dot,
    DotDot,
    Assign,
    Tilde,
}

#[tactic(auto, unfolding(crate::specs::Input::same_sign))]
pub fn same_sign(a: Sign, b: Sign) -> bool
    ensures value { result ≡ spec.same_sign a b }
    ensures same { result ≡ true → a ≡ b }
{
    a == b
}
