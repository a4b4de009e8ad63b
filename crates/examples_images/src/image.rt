ghost use Rattle.std.specs.Prelude.{◌≡◌, IfOk};
ghost use Rattle.yr_image.specs.Image.{shown};
ghost use Rattle.yr_image.specs.Encoding.{encoded_length};

use std::alloc::{AllocError, Global};
use std::test::Fail;
use yr_image::{CodeRow, RuleRow, Tables, encode};
use yr_rows::NodeRow;

// The tables of one rule, which is true: its name is the first letter of the pool, its namespace the second.
fn true_rule(alloc: Global) -> Result<Tables, AllocError>
    ensures { IfOk result (λ tables. encoded_length (shown tables) ≡ 162) }
{
    let rule = RuleRow {
        name_place: 0,
        name_length: 1,
        flags: 0,
        first_note: 0,
        notes: 0,
        first_string: 0,
        strings: 0,
        first_code: 0,
        code_rows: 2,
        namespace_place: 1,
        namespace_length: 1,
    };
    let node = NodeRow {
        first_edge: 0,
        edges: 0,
        failure: 0,
        depth: 0,
        first_output: 0,
        outputs: 0,
    };
    Ok(Tables {
        rules: vec![in alloc; rule]?,
        notes: Vec::new(alloc),
        externals: Vec::new(alloc),
        strings: Vec::new(alloc),
        splits: Vec::new(alloc),
        sets: Vec::new(alloc),
        programs: Vec::new(alloc),
        moves: Vec::new(alloc),
        nodes: vec![in alloc; node]?,
        edges: Vec::new(alloc),
        outputs: Vec::new(alloc),
        lists: Vec::new(alloc),
        code: vec![in alloc; code(3, 1), code(0, 0)]?,
        pool: vec![in alloc; b'a', b'n']?,
    })
}

fn code(op: u8, a: u8) -> CodeRow {
    CodeRow {
        op,
        a,
        b: 0,
        c: 0,
        d: 0,
    }
}

// The bytes of that image that are not 0, each with its place.
const TRUE_BYTES: [(usize, u8); 14] = [
    (0, 0x59),
    (1, 0x52),
    (2, 0x49),
    (3, 2),
    (4, 162),
    (8, 1),
    (40, 1),
    (56, 2),
    (60, 2),
    (68, 1),
    (92, 2),
    (96, 1),
    (100, 1),
    (128, 3),
];

// The bytes after those.
const LAST_BYTES: [(usize, u8); 3] = [(129, 1), (160, b'a'), (161, b'n')];

#[test]
fn encodes_the_tables_of_a_rule(rt: HostRuntime) -> Result<(), Fail> {
    let alloc = rt.alloc();
    let tables = true_rule(alloc)?;
    let bytes = encode(alloc, &tables).map_err(|_| AllocError)?;
    let mut want = [0u8; 162];
    for (place, byte) in TRUE_BYTES.iter().chain(&LAST_BYTES) {
        if let Some(to) = want.get_mut(*place) {
            *to = *byte;
        }
    }
    assert_eq!(rt; bytes.as_slice(), want.as_slice());
    Ok(())
}
