//! Rows of moves and sets as bytes.

use std::test::Fail;
use yr_rows::{Assertion, Move, MoveRow, are_wellformed_moves, count_moves, count_sets, set_has};

// A fork to 1 and 2, a set, a test of the wide edge, Accept.
const MOVES: [u8; 64] = [
    2, 0, 0, 0, 1, 0, 0, 0, 2, 0, 0, 0, 0, 0, 0, 0, //
    1, 0, 0, 0, 3, 0, 0, 0, 0, 0, 0, 0, 0, 0, 0, 0, //
    7, 0, 0, 0, 3, 0, 0, 0, 0, 0, 0, 0, 0, 0, 0, 0, //
    0, 0, 0, 0, 0, 0, 0, 0, 0, 0, 0, 0, 0, 0, 0, 0,
];

// The bytes 0, 9 and 255.
const SET: [u8; 32] = [
    1, 2, 0, 0, 0, 0, 0, 0, 0, 0, 0, 0, 0, 0, 0, 0, //
    0, 0, 0, 0, 0, 0, 0, 0, 0, 0, 0, 0, 0, 0, 0, 128,
];

#[test]
fn rows_of_moves(rt: HostRuntime) -> Result<(), Fail> {
    assert_eq!(rt; count_moves(&MOVES), 4);
    let says = [
        Move::Fork { next: 1, other: 2 },
        Move::Set { next: 3, set: 0 },
        Move::Test {
            assertion: Assertion::WideEdge,
            next: 3,
        },
        Move::Accept,
    ];
    for m in 0..4 {
        let row = MoveRow::at(&MOVES, m);
        assert_eq!(rt; row.read(), Some(says[m as usize]));
        assert_eq!(rt; says[m as usize].row(), row);
    }
    assert_eq!(rt; count_sets(&SET), 1);
    for b in 0..=255u8 {
        let member = b == 0 || b == 9 || b == 255;
        assert_eq!(rt; set_has(&SET, 0, b), member, "byte {b}");
    }
    let mut unused = MOVES;
    unused[48 + 12] = 1;
    let mut past = MOVES;
    past[8] = 4;
    let mut unknown = MOVES;
    unknown[32] = 9;
    let mut high = MOVES;
    high[7] = 1;
    assert!(rt; are_wellformed_moves(&MOVES, &SET));
    for bytes in [unused, past, unknown, high] {
        assert!(rt; !are_wellformed_moves(&bytes, &SET));
    }
    assert!(rt; !are_wellformed_moves(&MOVES, &[]));
    assert!(rt; !are_wellformed_moves(&[], &SET));
    Ok(())
}
