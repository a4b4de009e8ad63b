//! Worked images: what `certify` tells of them, and the words of their splits.

use crate::{CertFault, CertifiedImage, certify};
use std::alloc::{AllocError, Global};
use std::test::Fail;
use yr_verifier::counting::count_splits;
use yr_verifier::verify;

/// The rule `a` is true of every file: the numbers of its image before the pool, of four bytes each.
const TRUE: [u32; 38] = [
    0x149_5259, 153, 1, 0, 0, 0, 0, 0, 0, 0, 1, 0, 0, 0, 2, 1, 0, 1, 0, 0, 0, 0, 0, 2, 0, 0, 0, 0,
    0, 0, 0x103, 0, 0, 0, 0, 0, 0, 0,
];

/// It asks for a match of `$x`, whose split has no output row.
const NO_OUTPUT: [u32; 50] = [
    0x149_5259, 202, 1, 0, 0, 1, 1, 0, 0, 0, 1, 0, 0, 0, 2, 2, 0, 1, 0, 0, 0, 1, 0, 2, 1, 1, 0, 0,
    0, 0, 0x100, 0, 0, 0, 0, 0, 0, 0, 0, 0, 0, 0, 10, 0, 0, 0, 0, 0, 0, 0,
];

/// Its splits have the words `ab` and `b`. The number at 64 is the failure node of node 3.
const TWO_WORDS: [u32; 84] = [
    0x149_5259, 338, 1, 0, 0, 1, 2, 0, 0, 0, 4, 3, 2, 0, 2, 2, 0, 1, 0, 0, 0, 1, 0, 2, 1, 1, 0, 0,
    0, 0, 0x200, 0, 0, 0, 0, 0, 0, 0, 0x100, 0, 0, 0, 0, 0, 0, 2, 0, 0, 0, 0, 2, 1, 0, 1, 0, 0, 3,
    0, 0, 1, 0, 1, 3, 0, 2, 2, 1, 1, 0x61, 1, 0x62, 2, 0x62, 3, 1, 0, 10, 0, 0, 0, 0, 0, 0, 0,
];

fn bytes_of(alloc: Global, numbers: &[u32], pool: &[u8]) -> Result<Vec<u8>, AllocError> {
    let mut bytes = Vec::new(alloc);
    for number in numbers {
        bytes.extend_from_slice(&number.to_le_bytes())?;
    }
    bytes.extend_from_slice(pool)?;
    Ok(bytes)
}

/// What is told of an image: of the words of its first two splits the length and the first byte.
#[derive(Clone, Copy, Debug, PartialEq, Eq)]
enum Answer {
    NotWellformed,
    Fault(CertFault),
    Words(Option<(u8, u8)>, Option<(u8, u8)>),
}

fn word_of(certified: &CertifiedImage<'_>, split: u32) -> Option<(u8, u8)> {
    if split < count_splits(&certified.image().view()) {
        match certified.word(split) {
            Some(atom) => Some((atom.len, atom.bytes[0])),
            None => None,
        }
    } else {
        None
    }
}

fn told(alloc: Global, numbers: &[u32], pool: &[u8]) -> Result<Answer, AllocError> {
    let bytes = bytes_of(alloc, numbers, pool)?;
    let Ok(image) = verify(&bytes) else {
        return Ok(Answer::NotWellformed);
    };
    match certify(alloc, &image) {
        Ok(certified) => Ok(Answer::Words(word_of(&certified, 0), word_of(&certified, 1))),
        Err(fault) => Ok(Answer::Fault(fault)),
    }
}

#[test]
fn worked_images(rt: HostRuntime) -> Result<(), Fail> {
    let alloc = rt.alloc();
    let mut changed = TWO_WORDS;
    changed[64] = 0;
    assert_eq!(rt; told(alloc, &TRUE, b"a")?, Answer::Words(None, None));
    assert_eq!(rt; told(alloc, &NO_OUTPUT, b"ax")?, Answer::Words(None, None));
    let words = Answer::Words(Some((2, b'a')), Some((1, b'b')));
    assert_eq!(rt; told(alloc, &TWO_WORDS, b"ax")?, words);
    assert_eq!(rt;
        told(alloc, &changed, b"ax")?,
        Answer::Fault(CertFault::Link(3))
    );
    Ok(())
}
