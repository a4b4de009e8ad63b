//! The lexeme that a token stands for.

ghost use Rattle.std.specs.Prelude.{◌≡◌, ℕ, map};
ghost use Rattle.yr_parser.specs.Lexemes as lexemes;
ghost use Rattle.yr_parser.specs.Spelling as spec;

use crate::lexeme::Lexeme;
use crate::sign::Sign;
use yr_lexer::TokenKind;
use yr_syntax::{Infix, Reader};

/// The bytes of a reserved word or a sign, and what they stand for.
pub struct Row {
    text: &'static [u8],
    lexeme: Lexeme<'static>,
}

static WORDS: [Row; 51] = [
    Row {
        text: b"and",
        lexeme: Lexeme::Operator(Infix::And),
    },
    Row {
        text: b"or",
        lexeme: Lexeme::Operator(Infix::Or),
    },
    Row {
        text: b"not",
        lexeme: Lexeme::Sign(Sign::Not),
    },
    Row {
        text: b"of",
        lexeme: Lexeme::Sign(Sign::Of),
    },
    Row {
        text: b"them",
        lexeme: Lexeme::Sign(Sign::Them),
    },
    Row {
        text: b"any",
        lexeme: Lexeme::Sign(Sign::Any),
    },
    Row {
        text: b"all",
        lexeme: Lexeme::Sign(Sign::All),
    },
    Row {
        text: b"rule",
        lexeme: Lexeme::Sign(Sign::Rule),
    },
    Row {
        text: b"strings",
        lexeme: Lexeme::Sign(Sign::Strings),
    },
    Row {
        text: b"condition",
        lexeme: Lexeme::Sign(Sign::Condition),
    },
    Row {
        text: b"meta",
        lexeme: Lexeme::Sign(Sign::Meta),
    },
    Row {
        text: b"ascii",
        lexeme: Lexeme::Sign(Sign::Ascii),
    },
    Row {
        text: b"wide",
        lexeme: Lexeme::Sign(Sign::Wide),
    },
    Row {
        text: b"nocase",
        lexeme: Lexeme::Sign(Sign::NoCase),
    },
    Row {
        text: b"fullword",
        lexeme: Lexeme::Sign(Sign::FullWord),
    },
    Row {
        text: b"xor",
        lexeme: Lexeme::Sign(Sign::Xor),
    },
    Row {
        text: b"base64",
        lexeme: Lexeme::Sign(Sign::Base64),
    },
    Row {
        text: b"base64wide",
        lexeme: Lexeme::Sign(Sign::Base64Wide),
    },
    Row {
        text: b"private",
        lexeme: Lexeme::Sign(Sign::Private),
    },
    Row {
        text: b"global",
        lexeme: Lexeme::Sign(Sign::Global),
    },
    Row {
        text: b"import",
        lexeme: Lexeme::Sign(Sign::Import),
    },
    Row {
        text: b"include",
        lexeme: Lexeme::Sign(Sign::Include),
    },
    Row {
        text: b"at",
        lexeme: Lexeme::Sign(Sign::At),
    },
    Row {
        text: b"in",
        lexeme: Lexeme::Sign(Sign::In),
    },
    Row {
        text: b"for",
        lexeme: Lexeme::Sign(Sign::For),
    },
    Row {
        text: b"none",
        lexeme: Lexeme::Sign(Sign::None),
    },
    Row {
        text: b"defined",
        lexeme: Lexeme::Sign(Sign::Defined),
    },
    Row {
        text: b"filesize",
        lexeme: Lexeme::Sign(Sign::FileSize),
    },
    Row {
        text: b"entrypoint",
        lexeme: Lexeme::Sign(Sign::EntryPoint),
    },
    Row {
        text: b"true",
        lexeme: Lexeme::Flag(true),
    },
    Row {
        text: b"false",
        lexeme: Lexeme::Flag(false),
    },
    Row {
        text: b"matches",
        lexeme: Lexeme::Sign(Sign::Matches),
    },
    Row {
        text: b"contains",
        lexeme: Lexeme::Operator(Infix::Contains),
    },
    Row {
        text: b"icontains",
        lexeme: Lexeme::Operator(Infix::IContains),
    },
    Row {
        text: b"startswith",
        lexeme: Lexeme::Operator(Infix::StartsWith),
    },
    Row {
        text: b"istartswith",
        lexeme: Lexeme::Operator(Infix::IStartsWith),
    },
    Row {
        text: b"endswith",
        lexeme: Lexeme::Operator(Infix::EndsWith),
    },
    Row {
        text: b"iendswith",
        lexeme: Lexeme::Operator(Infix::IEndsWith),
    },
    Row {
        text: b"iequals",
        lexeme: Lexeme::Operator(Infix::IEquals),
    },
    Row {
        text: b"uint8",
        lexeme: Lexeme::Read(Reader::Uint8),
    },
    Row {
        text: b"uint16",
        lexeme: Lexeme::Read(Reader::Uint16),
    },
    Row {
        text: b"uint32",
        lexeme: Lexeme::Read(Reader::Uint32),
    },
    Row {
        text: b"int8",
        lexeme: Lexeme::Read(Reader::Int8),
    },
    Row {
        text: b"int16",
        lexeme: Lexeme::Read(Reader::Int16),
    },
    Row {
        text: b"int32",
        lexeme: Lexeme::Read(Reader::Int32),
    },
    Row {
        text: b"uint8be",
        lexeme: Lexeme::Read(Reader::Uint8Be),
    },
    Row {
        text: b"uint16be",
        lexeme: Lexeme::Read(Reader::Uint16Be),
    },
    Row {
        text: b"uint32be",
        lexeme: Lexeme::Read(Reader::Uint32Be),
    },
    Row {
        text: b"int8be",
        lexeme: Lexeme::Read(Reader::Int8Be),
    },
    Row {
        text: b"int16be",
        lexeme: Lexeme::Read(Reader::Int16Be),
    },
    Row {
        text: b"int32be",
        lexeme: Lexeme::Read(Reader::Int32Be),
    },
];

static SIGNS: [Row; 28] = [
    Row {
        text: b"(",
        lexeme: Lexeme::Sign(Sign::Open),
    },
    Row {
        text: b")",
        lexeme: Lexeme::Sign(Sign::Close),
    },
    Row {
        text: b"=",
        lexeme: Lexeme::Sign(Sign::Assign),
    },
    Row {
        text: b":",
        lexeme: Lexeme::Sign(Sign::Colon),
    },
    Row {
        text: b"{",
        lexeme: Lexeme::Sign(Sign::OpenBrace),
    },
    Row {
        text: b"}",
        lexeme: Lexeme::Sign(Sign::CloseBrace),
    },
    Row {
        text: b",",
        lexeme: Lexeme::Sign(Sign::Comma),
    },
    Row {
        text: b".",
        lexeme: Lexeme::Sign(Sign::Dot),
    },
    Row {
        text: b"..",
        lexeme: Lexeme::Sign(Sign::DotDot),
    },
    Row {
        text: b"[",
        lexeme: Lexeme::Sign(Sign::OpenBracket),
    },
    Row {
        text: b"]",
        lexeme: Lexeme::Sign(Sign::CloseBracket),
    },
    Row {
        text: b"==",
        lexeme: Lexeme::Operator(Infix::Equal),
    },
    Row {
        text: b"!=",
        lexeme: Lexeme::Operator(Infix::NotEqual),
    },
    Row {
        text: b"<",
        lexeme: Lexeme::Operator(Infix::Less),
    },
    Row {
        text: b"<=",
        lexeme: Lexeme::Operator(Infix::LessOrEqual),
    },
    Row {
        text: b">",
        lexeme: Lexeme::Operator(Infix::Greater),
    },
    Row {
        text: b">=",
        lexeme: Lexeme::Operator(Infix::GreaterOrEqual),
    },
    Row {
        text: b"<<",
        lexeme: Lexeme::Operator(Infix::ShiftLeft),
    },
    Row {
        text: b">>",
        lexeme: Lexeme::Operator(Infix::ShiftRight),
    },
    Row {
        text: b"+",
        lexeme: Lexeme::Operator(Infix::Add),
    },
    Row {
        text: b"-",
        lexeme: Lexeme::Operator(Infix::Subtract),
    },
    Row {
        text: b"*",
        lexeme: Lexeme::Operator(Infix::Multiply),
    },
    Row {
        text: b"\\",
        lexeme: Lexeme::Operator(Infix::Divide),
    },
    Row {
        text: b"%",
        lexeme: Lexeme::Operator(Infix::Remainder),
    },
    Row {
        text: b"&",
        lexeme: Lexeme::Operator(Infix::BitAnd),
    },
    Row {
        text: b"^",
        lexeme: Lexeme::Operator(Infix::BitXor),
    },
    Row {
        text: b"|",
        lexeme: Lexeme::Operator(Infix::BitOr),
    },
    Row {
        text: b"~",
        lexeme: Lexeme::Sign(Sign::Tilde),
    },
];

fn words() -> &'static [Row]
    ensures { map lexemes.row_of result.now ≡ spec.words }
{
    &WORDS
}

fn signs() -> &'static [Row]
    ensures { map lexemes.row_of result.now ≡ spec.signs }
{
    &SIGNS
}

fn find(rows: &[Row], text: &[u8]) -> Option<Lexeme<'static>>
    ensures { lexemes.next_of result ≡ spec.lookup text.now (map lexemes.row_of rows.now) }
{
    let mut rest = rows;
    while let [row, more @ ..] = rest {
        if row.text == text {
            return Some(row.lexeme);
        }
        rest = more;
    }
    None
}

fn known(found: Option<Lexeme<'static>>) -> Lexeme<'static>
    ensures { lexemes.terminal_of result ≡ spec.known (lexemes.next_of found.entry) }
{
    match found {
        Some(lexeme) => lexeme,
        None => Lexeme::Sign(Sign::Include),
    }
}

/// The bytes without the first and without so many at the end.
pub fn inside(text: &[u8], ends: usize) -> &[u8]
    ensures { result.now ≡ spec.inside ends text.now }
{
    let front = if ends < text.len() {
        &text[..text.len() - ends]
    } else {
        &[]
    };
    match front {
        [] => &[],
        [_, rest @ ..] => rest,
    }
}

/// What the bytes of a token of a kind stand for.
pub fn spelled(text: &[u8], kind: TokenKind) -> Lexeme<'_>
    ensures { lexemes.terminal_of result ≡ spec.spelled text.now kind }
{
    match kind {
        TokenKind::Word => Lexeme::Word(text),
        TokenKind::Reserved => known(find(words(), text)),
        TokenKind::StringName => Lexeme::StringName(inside(text, 0)),
        TokenKind::StringWild => Lexeme::StringWild(inside(text, 1)),
        TokenKind::CountName => Lexeme::CountName(inside(text, 0)),
        TokenKind::PlaceName => Lexeme::PlaceName(inside(text, 0)),
        TokenKind::LengthName => Lexeme::LengthName(inside(text, 0)),
        TokenKind::Number(value) => Lexeme::Number(value),
        TokenKind::Text => Lexeme::Text(inside(text, 1)),
        TokenKind::Regex { nocase, dot_all } => regex(text, nocase, dot_all),
        TokenKind::Hex => Lexeme::Hex(inside(text, 1)),
        TokenKind::Sign => known(find(signs(), text)),
    }
}

fn regex(text: &[u8], nocase: bool, dot_all: bool) -> Lexeme<'_>
    ensures { lexemes.terminal_of result ≡ spec.spelled text.now (TokenKind.Regex nocase dot_all) }
{
    let letters = if nocase { 1 } else { 0 };
    let dots = if dot_all { 1 } else { 0 };
    Lexeme::Regex {
        text: inside(text, 1 + (letters + dots)),
        nocase,
        dot_all,
    }
}
