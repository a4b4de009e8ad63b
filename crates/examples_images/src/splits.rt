//! The rows of small strings.

ghost use Rattle.std.specs.Prelude.{◌<◌, ◌≤◌, length, IfOk};
ghost use Rattle.yr_rules.specs.Rules.{string_of};
ghost use Rattle.yr_rules.specs.Wellformed.{IsGoodString};

use std::alloc::Global;
use std::test::Fail;
use yr_base::{Border, NoMemory};
use yr_draft::ImageDraft;
use yr_image::Tables;
use yr_pattern::VariantBody;
use yr_rules::{CheckedString, Variant};
use yr_splits::{put_automaton, put_rows};

// The string `$x` of one literal.
fn string(alloc: Global, text: &[u8], fold: bool) -> Result<CheckedString, NoMemory>
    requires some { 0 < length text.now }
    requires few { length text.now ≤ 65535 }
    ensures { IfOk result (λ s. IsGoodString (string_of s)) }
{
    let mut bytes = Vec::new(alloc);
    bytes.extend_from_slice(text)?;
    let body = VariantBody::Literal {
        bytes,
        key: 0,
        fold,
    };
    let border = Border::Free;
    Ok(CheckedString {
        name: Vec::new(alloc),
        rule: 0,
        hidden: false,
        greedy: fold,
        variants: vec![in alloc; Variant { body, border }]?,
    })
}

// Its tables.
fn tables(alloc: Global, text: &[u8], fold: bool) -> Result<Tables, NoMemory>
    requires some { 0 < length text.now }
    requires few { length text.now ≤ 65535 }
{
    let one = string(alloc, text, fold)?;
    let strings = vec![in alloc; one]?;
    let mut draft = ImageDraft::new(alloc);
    let atoms = put_rows(alloc, &mut draft, &strings)?;
    if atoms.len() < 1000 {
        put_automaton(alloc, &mut draft, &atoms)?;
    }
    Ok(draft.finish())
}

// How many splits, nodes, edges, outputs and bytes of text there are, and the flags of the string.
fn seen(t: &Tables) -> ([usize; 5], u32) {
    let counts = [
        t.splits.len(),
        t.nodes.len(),
        t.edges.len(),
        t.outputs.len(),
        t.pool.len(),
    ];
    match t.strings.first() {
        Some(row) => (counts, row.flags),
        None => (counts, 9),
    }
}

#[test]
fn rows_of_strings(rt: HostRuntime) -> Result<(), Fail> {
    let whole = tables(rt.alloc(), b"ab", false)?;
    assert_eq!(rt; seen(&whole), ([1, 3, 2, 1, 0], 0));
    let longer = tables(rt.alloc(), b"abcdef", false)?;
    assert_eq!(rt; seen(&longer), ([1, 5, 4, 1, 2], 0));
    let folded = tables(rt.alloc(), b"a1", true)?;
    assert_eq!(rt; seen(&folded), ([2, 5, 4, 2, 0], 2));
    Ok(())
}
