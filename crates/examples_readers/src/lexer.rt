//! Texts whose tokens were read by hand.

use std::alloc::Global;
use std::test::Fail;
use yr_lexer::TokenKind::{
    CountName, Hex, LengthName, Number, PlaceName, Regex, Reserved, Sign, StringName, StringWild,
    Text, Word,
};
use yr_lexer::{LexFault, Token, TokenKind, has_good_escapes, lex, unescape};

/// The kinds wanted, each with the line, the first place and the place behind.
type Wanted<'a> = &'a [(TokenKind, u32, u32, u32)];

fn is_wanted(token: &Token, wanted: &(TokenKind, u32, u32, u32)) -> bool {
    token.kind == wanted.0
        && token.line == wanted.1
        && token.from == wanted.2
        && token.to == wanted.3
}

fn are_wanted(tokens: &[Token], wanted: Wanted<'_>) -> bool {
    tokens.len() == wanted.len() && tokens.iter().zip(wanted).all(|(t, w)| is_wanted(t, w))
}

/// Whether a short text has these tokens.
fn has(alloc: Global, text: &str, wanted: Wanted<'_>) -> bool {
    if text.len() > 1000 {
        return false;
    }
    match lex(alloc, text.as_bytes()) {
        Ok(tokens) => are_wanted(&tokens, wanted),
        Err(_) => false,
    }
}

/// The fault of a short text.
fn fault_of(alloc: Global, text: &[u8]) -> Option<LexFault> {
    if text.len() > 1000 {
        return None;
    }
    match lex(alloc, text) {
        Ok(_) => None,
        Err(fault) => Some(fault),
    }
}

const I: TokenKind = Regex {
    nocase: true,
    dot_all: false,
};

const SI: TokenKind = Regex {
    nocase: true,
    dot_all: true,
};

const PLAIN: TokenKind = Regex {
    nocase: false,
    dot_all: false,
};

#[test]
fn texts_have_their_tokens(rt: HostRuntime) {
    let alloc = rt.alloc();
    let rows: [(&str, Wanted<'_>); 15] = [
        ("", &[]),
        ("// no end of line", &[]),
        (
            "rule a\n{ x }",
            &[
                (Reserved, 1, 0, 4),
                (Word, 1, 5, 6),
                (Sign, 2, 7, 8),
                (Word, 2, 9, 10),
                (Sign, 2, 11, 12),
            ],
        ),
        (
            "5MB 2KB 10 0x1F 0o17",
            &[
                (Number(5_242_880), 1, 0, 3),
                (Number(2048), 1, 4, 7),
                (Number(10), 1, 8, 10),
                (Number(31), 1, 11, 15),
                (Number(15), 1, 16, 20),
            ],
        ),
        ("9223372036854775807", &[(Number(i64::MAX), 1, 0, 19)]),
        (
            "!a!= !==",
            &[
                (LengthName, 1, 0, 2),
                (Sign, 1, 2, 4),
                (Sign, 1, 5, 7),
                (Sign, 1, 7, 8),
            ],
        ),
        (
            "$a*2 #a*2",
            &[
                (StringWild, 1, 0, 3),
                (Number(2), 1, 3, 4),
                (CountName, 1, 5, 7),
                (Sign, 1, 7, 8),
                (Number(2), 1, 8, 9),
            ],
        ),
        (
            "$ @a_1 #",
            &[
                (StringName, 1, 0, 1),
                (PlaceName, 1, 2, 6),
                (CountName, 1, 7, 8),
            ],
        ),
        (
            "= { 01 /* } */ 02 // }\n } x",
            &[(Sign, 1, 0, 1), (Hex, 1, 2, 25), (Word, 2, 26, 27)],
        ),
        (
            "== { }",
            &[(Sign, 1, 0, 2), (Sign, 1, 3, 4), (Sign, 1, 5, 6)],
        ),
        (
            "\"a*/\" /* \"x\n */ x",
            &[(Text, 1, 0, 5), (Word, 2, 16, 17)],
        ),
        (
            "/a/in /b/si /\\//s0",
            &[
                (I, 1, 0, 4),
                (Word, 1, 4, 5),
                (SI, 1, 6, 11),
                (
                    Regex {
                        nocase: false,
                        dot_all: true,
                    },
                    1,
                    12,
                    17,
                ),
                (Number(0), 1, 17, 18),
            ],
        ),
        (
            "/[a*]/ 1..2",
            &[
                (PLAIN, 1, 0, 6),
                (Number(1), 1, 7, 8),
                (Sign, 1, 8, 10),
                (Number(2), 1, 10, 11),
            ],
        ),
        (
            "0x1.5 <<=",
            &[
                (Number(1), 1, 0, 3),
                (Sign, 1, 3, 4),
                (Number(5), 1, 4, 5),
                (Sign, 1, 6, 8),
                (Sign, 1, 8, 9),
            ],
        ),
        ("forx for", &[(Word, 1, 0, 4), (Reserved, 1, 5, 8)]),
    ];
    for (text, wanted) in rows {
        assert_eq!(rt; has(alloc, text, wanted), true, "{text}");
    }
}

#[test]
fn faults_come_in_their_order_and_texts_stand_for_bytes(rt: HostRuntime) -> Result<(), Fail> {
    let alloc = rt.alloc();
    let long =
        "a_________10________20________30________40________50________60________70________80________90_______100_______110_______120______9";
    let rows = [
        ("rule a { strings: $a = \"x", LexFault::Unclosed(1)),
        ("\n\"x\n\"", LexFault::Unclosed(2)),
        ("x /* /", LexFault::Unclosed(1)),
        ("/*/", LexFault::Unclosed(1)),
        ("= { 01 /* 02 }", LexFault::Unclosed(1)),
        ("= { 01 // }", LexFault::Unclosed(1)),
        ("/ab", LexFault::Unclosed(1)),
        ("/a\n/", LexFault::Unclosed(1)),
        ("/* \n */ \"\\q\"", LexFault::BadEscape(2)),
        ("\"\\x4\"", LexFault::BadEscape(1)),
        ("\"\\q", LexFault::Unclosed(1)),
        ("1.5 > 1", LexFault::Float(1)),
        ("12a", LexFault::BadByte(1)),
        ("1kb", LexFault::BadByte(1)),
        ("0x", LexFault::BadByte(1)),
        ("0o8", LexFault::BadByte(1)),
        ("a ?", LexFault::BadByte(1)),
        ("\u{feff}rule", LexFault::BadByte(1)),
        ("9223372036854775808", LexFault::TooLargeNumber(1)),
        ("8796093022208MB", LexFault::TooLargeNumber(1)),
        (long, LexFault::LongName(1)),
    ];
    for (text, fault) in rows {
        assert_eq!(rt; fault_of(alloc, text.as_bytes()), Some(fault), "{text}");
    }
    assert_eq!(rt; long.len(), 129);
    assert_eq!(rt; fault_of(alloc, &long.as_bytes()[1..]), None);
    let inside = b"a\\\"\\\\\\t\\n\\r\\x41\\xfF";
    assert_eq!(rt; has_good_escapes(inside), true);
    let bytes = unescape(alloc, inside)?;
    assert_eq!(rt; bytes.as_slice(), b"a\"\\\t\n\rA\xff".as_slice());
    assert_eq!(rt; has_good_escapes(b"\\x4"), false);
    Ok(())
}
