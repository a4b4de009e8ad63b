//! Expressions, and what is read of them.

use std::alloc::Global;
use std::test::Fail;
use yr_pattern::{ByteSet, Pattern};
use yr_regex::{RegexFault, read_regex};

fn fault(alloc: Global, text: &[u8]) -> Option<RegexFault> {
    if text.len() > 1000 {
        return None;
    }
    match read_regex(alloc, text, false, false) {
        Ok(_) => None,
        Err(fault) => Some(fault),
    }
}

/// Whether the text is read as this pattern with this greed.
fn is_read_as(
    alloc: Global,
    text: &[u8],
    nocase: bool,
    dot_all: bool,
    wanted: &Pattern,
    greedy: bool,
) -> Result<bool, RegexFault> {
    if text.len() > 1000 {
        return Ok(false);
    }
    let regex = read_regex(alloc, text, nocase, dot_all)?;
    Ok(regex.pattern == *wanted && regex.greedy == greedy)
}

fn some_of(alloc: Global, set: ByteSet) -> Result<Pattern, RegexFault> {
    let inner = Box::new(alloc, Pattern::One(set))?;
    Ok(Pattern::Rep {
        inner,
        min: 1,
        max: None,
    })
}

/// `\bab|`
fn choice(alloc: Global) -> Result<Pattern, RegexFault> {
    let a = Pattern::One(ByteSet::one(b'a'));
    let b = Pattern::One(ByteSet::one(b'b'));
    let word = Pattern::Seq(vec![in alloc; Pattern::Edge, a, b]?);
    Ok(Pattern::Alt(vec![in alloc; word, Pattern::Empty]?))
}

fn patterns(alloc: Global) -> Result<[bool; 6], RegexFault> {
    let b = ByteSet::one(b'b');
    let all = ByteSet::none().complement();
    let line = ByteSet::one(b'\n').complement();
    let several = some_of(alloc, b)?;
    let others = some_of(alloc, b.with(b'B').complement())?;
    let any = some_of(alloc, all)?;
    let visible = some_of(alloc, line)?;
    Ok([
        is_read_as(
            alloc,
            b"(b+)",
            false,
            false,
            &in_sequences(alloc, several)?,
            true,
        )?,
        is_read_as(
            alloc,
            b"[^b]+",
            true,
            false,
            &in_sequence(alloc, others)?,
            true,
        )?,
        is_read_as(alloc, b".+", false, true, &in_sequence(alloc, any)?, true)?,
        is_read_as(
            alloc,
            b".+?",
            false,
            false,
            &in_sequence(alloc, visible)?,
            false,
        )?,
        is_read_as(alloc, b"\\bab|", false, false, &choice(alloc)?, true)?,
        is_read_as(alloc, b"", false, false, &Pattern::Empty, true)?,
    ])
}

fn in_sequence(alloc: Global, pattern: Pattern) -> Result<Pattern, RegexFault> {
    Ok(Pattern::Seq(vec![in alloc; pattern]?))
}

fn in_sequences(alloc: Global, pattern: Pattern) -> Result<Pattern, RegexFault> {
    let inner = in_sequence(alloc, pattern)?;
    in_sequence(alloc, inner)
}

#[test]
fn texts_have_their_answers(rt: HostRuntime) -> Result<(), Fail> {
    let alloc = rt.alloc();
    let rows = [
        ("", None),
        ("a+b?", None),
        ("a{2}b*?", None),
        ("a{2}?b*", None),
        ("a+b*?", Some(RegexFault::MixedGreed)),
        ("a{2,2}?b*", Some(RegexFault::MixedGreed)),
        ("a{3,2}b+c+?", Some(RegexFault::RegexRange(1))),
        ("a{3,2}", Some(RegexFault::RegexRange(1))),
        ("a{32767}", None),
        ("a{32768}", Some(RegexFault::RegexRange(1))),
        ("a{99999999999999999999}", Some(RegexFault::RegexRange(1))),
        ("a{,32768}", Some(RegexFault::RegexRange(1))),
        ("[b-a]x{3,2}", Some(RegexFault::RegexRange(1))),
        ("x{3,2}[b-a]", Some(RegexFault::RegexRange(1))),
        ("[a\\d\\x62-\\x61]", Some(RegexFault::RegexRange(4))),
        ("[a--]", Some(RegexFault::RegexRange(1))),
        ("a{3,2}*", Some(RegexFault::RegexSyntax)),
        ("a**", Some(RegexFault::RegexSyntax)),
        ("a*??", Some(RegexFault::RegexSyntax)),
        ("a{2}{3}", Some(RegexFault::RegexSyntax)),
        ("{2}", Some(RegexFault::RegexSyntax)),
        ("^*", Some(RegexFault::RegexSyntax)),
        ("{,}", None),
        ("{2", None),
        ("a{,3}", None),
        ("]}", None),
        ("(", Some(RegexFault::RegexSyntax)),
        (")", Some(RegexFault::RegexSyntax)),
        ("(|)", None),
        ("\\1", Some(RegexFault::RegexSyntax)),
        ("\\q", None),
        ("\\x4", Some(RegexFault::RegexSyntax)),
        ("[]a]", None),
        ("[^]a]", None),
        ("[^^]", None),
        ("[a-]", None),
        ("[--a]", None),
        ("[\\d-z]", None),
        ("[a-\\d]", Some(RegexFault::RegexSyntax)),
        ("[\\b]", Some(RegexFault::RegexSyntax)),
        ("[]", Some(RegexFault::RegexSyntax)),
        (
            "((((((((((((((((((((((((((((((((((((((((((((((((((((((((((((((((a))))))))))))))))))))))))))))))))))))))))))))))))))))))))))))))))",
            None,
        ),
        (
            "(((((((((((((((((((((((((((((((((((((((((((((((((((((((((((((((((a)))))))))))))))))))))))))))))))))))))))))))))))))))))))))))))))))",
            Some(RegexFault::RegexSyntax),
        ),
    ];
    for (text, wanted) in rows {
        assert_eq!(rt; fault(alloc, text.as_bytes()), wanted);
    }
    assert_eq!(rt; patterns(alloc)?, [true; 6]);
    Ok(())
}
