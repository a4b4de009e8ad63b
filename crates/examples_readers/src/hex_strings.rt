//! Hex strings, and what is read of them.

use std::alloc::Global;
use std::test::Fail;
use yr_hex::HexFault::{self, HexJump, HexSyntax};
use yr_hex::read_hex;
use yr_pattern::{ByteSet, Pattern};

/// Longer texts are no rows.
const LIMIT: usize = 1000;

fn fault_of(alloc: Global, text: &[u8]) -> Option<HexFault> {
    if text.len() > LIMIT {
        return None;
    }
    match read_hex(alloc, text) {
        Ok(_) => None,
        Err(fault) => Some(fault),
    }
}

fn byte(b: u8) -> Pattern {
    Pattern::One(ByteSet::one(b))
}

fn jump(alloc: Global, min: u32, max: Option<u32>) -> Result<Pattern, HexFault> {
    let any = Pattern::One(ByteSet::none().complement());
    let inner = Box::new(alloc, any)?;
    Ok(Pattern::Rep { inner, min, max })
}

/// Whether `01 [2-4] 02` is read.
fn reads_a_jump(alloc: Global) -> Result<bool, HexFault> {
    let wanted = Pattern::Seq(vec![in alloc; byte(1), jump(alloc, 2, Some(4))?, byte(2)]?);
    Ok(read_hex(alloc, b"01 [2-4] 02")? == wanted)
}

/// Whether `01 ~?2 ( 03 | 04 [1-2] 05 )` is read.
fn reads_a_choice(alloc: Global) -> Result<bool, HexFault> {
    let mut twos = ByteSet::none();
    for high in 0..16u8 {
        twos = twos.with(high * 16 + 2);
    }
    let first = Pattern::Seq(vec![in alloc; byte(3)]?);
    let second = Pattern::Seq(vec![in alloc; byte(4), jump(alloc, 1, Some(2))?, byte(5)]?);
    let choice = Pattern::Alt(vec![in alloc; first, second]?);
    let wanted = Pattern::Seq(vec![in alloc; byte(1), Pattern::One(twos.complement()), choice]?);
    Ok(read_hex(alloc, b"01 ~?2 ( 03 | 04 [1-2] 05 )")? == wanted)
}

/// Whether `aB[-]0?` is read, without blanks.
fn reads_halves(alloc: Global) -> Result<bool, HexFault> {
    let mut small = ByteSet::none();
    for low in 0..16u8 {
        small = small.with(low);
    }
    let wanted = Pattern::Seq(vec![in alloc;
        byte(0xab),
        jump(alloc, 0, None)?,
        Pattern::One(small),
    ]?);
    Ok(read_hex(alloc, b"aB[-]0?")? == wanted)
}

#[test]
fn patterns_of_texts(rt: HostRuntime) -> Result<(), Fail> {
    let alloc = rt.alloc();
    assert!(rt; reads_a_jump(alloc)?, "a jump");
    assert!(rt; reads_a_choice(alloc)?, "a choice");
    assert!(rt; reads_halves(alloc)?, "halves");
    Ok(())
}

#[test]
fn faults_of_texts(rt: HostRuntime) {
    let rows = [
        (b" 01 [2-] ".as_slice(), Some(HexJump(4))),
        (b"0", Some(HexSyntax)),
        (b"", Some(HexSyntax)),
        (b"~??", Some(HexSyntax)),
        (b"~?0 ??", None),
        (b"~ 01", Some(HexSyntax)),
        (b"01 [ 1 /* a */ - // b\n 3 ] 02", None),
        (b"01 /*/ 02", Some(HexSyntax)),
        (b"01 [65535] 02", None),
        (b"01 [65536] 02", Some(HexJump(3))),
        (b"01 [0-99999999999999999999999999] 02", Some(HexJump(3))),
        (b"01 [00000000000000000000000000-1] 02", None),
        (b"01 [2-1] 02", Some(HexJump(3))),
        (b"01 ( 02 [200] 03 | 04 )", None),
        (b"01 ( 02 [201] 03 | 04 )", Some(HexJump(8))),
        (b"01 ( 02 [1-] 03 | 04 )", Some(HexJump(8))),
        (b"01 ( [1] 03 | 04 [1] ) [2-1] 02", Some(HexJump(5))),
        (b"01 ( 02 [201] 03 | 04 ) [-", Some(HexSyntax)),
        (b"01 ( 02 | ) 03", Some(HexSyntax)),
        (
            b"(((((((((((((((((((((((((((((((((((((((((((((((((((((((((((((((( 00 ))))))))))))))))))))))))))))))))))))))))))))))))))))))))))))))))",
            None,
        ),
        (
            b"((((((((((((((((((((((((((((((((((((((((((((((((((((((((((((((((( 00 )))))))))))))))))))))))))))))))))))))))))))))))))))))))))))))))))",
            Some(HexSyntax),
        ),
    ];
    for (text, wanted) in rows {
        assert_eq!(rt; fault_of(rt.alloc(), text), wanted);
    }
}
