ghost use Rattle.std.specs.Prelude.{◌≡◌, ◌<◌, IfOk};
ghost use Rattle.yr_automaton.specs.Rows.{node_count, AreWellformedRows};

use std::alloc::{AllocError, Global};
use std::fmt::Write;
use std::marker::Brand;
use std::sync::ledger::{Blank, Ledger};
use std::test::Fail;
use yr_automaton::{AutomatonRows, build};
use yr_base::{Atom, Steps};

// The first four bytes of the word.
fn atom_of(word: &[u8]) -> Atom {
    let mut bytes = [0; 4];
    for (to, from) in bytes.iter_mut().zip(word) {
        *to = *from;
    }
    Atom {
        bytes,
        len: word.len().min(4) as u8,
    }
}

fn atoms_of(alloc: Global, words: &[&[u8]]) -> Result<Vec<Atom>, AllocError> {
    let mut atoms = Vec::new(alloc);
    for word in words {
        atoms.push(atom_of(word))?;
    }
    Ok(atoms)
}

// Adds a star for each node that is asked.
fn advance(rows: &AutomatonRows<'_>, node: u32, byte: u8, out: &mut String) -> Result<u32, Fail>
    requires wellformed { AreWellformedRows rows.now }
    requires inside { node < node_count rows.now }
    ensures { IfOk result (λ m. m < node_count rows.now) }
{
    let mut at = node;
    loop {
        out.push('*')?;
        if let Some(target) = rows.edge(at, byte) {
            return Ok(target);
        }
        if at == 0 {
            return Ok(0);
        }
        at = rows.failure(at);
    }
}

fn put_outputs(rows: &AutomatonRows<'_>, node: u32, out: &mut String) -> Result<(), Fail>
    requires wellformed { AreWellformedRows rows.now }
    requires inside { node < node_count rows.now }
{
    for output in rows.outputs(node) {
        write!(out, " {output}")?;
    }
    Ok(())
}

// The outputs before the text and after each of its bytes, with a star for each node asked.
fn told<L: Ledger>(
    blank: Blank,
    alloc: Global,
    rows: &AutomatonRows<'_>,
    text: &[u8],
) -> Result<String, Fail>
    requires name { blank.name ≡ L.name }
    requires parts { blank.parts ≡ L.parts }
    requires blank { 0 < blank.parts }
    requires wellformed { AreWellformedRows rows.now }
    requires some { 0 < node_count rows.now }
{
    let mut steps = Steps::<L>::begin(blank);
    let mut out = String::new(alloc);
    let mut at = 0;
    put_outputs(rows, at, &mut out)?;
    for byte in text {
        out.push_str(", ")?;
        let asked = advance(rows, at, *byte, &mut out)?;
        at = rows.step(at, *byte, &mut steps);
        if at != asked {
            out.push_str("another node")?;
        }
        put_outputs(rows, at, &mut out)?;
    }
    Ok(out)
}

// The same of the automaton of at most 1,000 atoms.
fn told_of_atoms(alloc: Global, atoms: &[Atom], text: &[u8]) -> Result<String, Fail> {
    let automaton = build(alloc, &atoms[..atoms.len().min(1000)])?;
    told::<Brand>(Blank::new(1), alloc, &automaton.rows(), text)
}

// The same of rows that `build` does not make: two edges lead to node 1, and two rows have 7.
fn told_of_other_rows(alloc: Global, text: &[u8]) -> Result<String, Fail> {
    let nodes: [u8; 48] = [
        0, 0, 0, 0, 2, 0, 0, 0, 0, 0, 0, 0, 0, 0, 0, 0, 0, 0, 0, 0, 1, 0, 0, 0, // node 0
        2, 0, 0, 0, 0, 0, 0, 0, 0, 0, 0, 0, 1, 0, 0, 0, 1, 0, 0, 0, 2, 0, 0, 0, // node 1
    ];
    let edges: [u8; 16] = [97, 0, 0, 0, 1, 0, 0, 0, 98, 0, 0, 0, 1, 0, 0, 0];
    let outputs: [u8; 12] = [7, 0, 0, 0, 5, 0, 0, 0, 7, 0, 0, 0];
    told::<Brand>(
        Blank::new(1),
        alloc,
        &AutomatonRows::over(&nodes, &edges, &outputs),
        text,
    )
}

#[test]
fn finds_what_the_text_ends_in(rt: HostRuntime) -> Result<(), Fail> {
    let alloc = rt.alloc();
    let rows: [(&str, &[&[u8]], &[u8], &str); 8] = [
        (
            "the empty atom",
            &[b"ab", b"b", b""],
            b"ab",
            " 2, * 2, * 0 1 2",
        ),
        ("equal atoms", &[b"ab", b"ab"], b"ab", ", *, * 0 1"),
        ("no atoms", &[], b"ab", ", *, *"),
        (
            "prefixes and suffixes",
            &[b"a", b"ab", b"abc", b"bc", b"c", b"abcd", b"bcd"],
            b"abcde",
            ", * 0, * 1, * 2 3 4, * 5 6, ***",
        ),
        (
            "four failure links",
            &[b"aaaa", b"b"],
            b"aaaab",
            ", *, *, *, * 0, ***** 1",
        ),
        (
            "each longer word",
            &[b"aa"],
            b"aaaa",
            ", *, * 0, ** 0, ** 0",
        ),
        (
            "the outer bytes",
            &[b"\x00", b"\xff\x00"],
            b"\xff\x00\x00",
            ", *, * 1 0, *** 0",
        ),
        (
            "another byte",
            &[b"abc"],
            b"abxabc",
            ", *, *, **, *, *, * 0",
        ),
    ];
    for (name, words, text, want) in rows {
        let atoms = atoms_of(alloc, words)?;
        assert_eq!(rt;
            told_of_atoms(alloc, &atoms, text)?.as_str(),
            want,
            "{name}"
        );
    }
    let mut all = Vec::new(alloc);
    for byte in 0..=255u8 {
        all.push(atom_of(&[byte]))?;
    }
    assert_eq!(rt;
        told_of_atoms(alloc, &all, b"\x00A\xff")?.as_str(),
        ", * 0, ** 65, ** 255"
    );
    let want = " 7, * 5 7 7, ** 7, * 5 7 7, ** 5 7 7";
    assert_eq!(rt; told_of_other_rows(alloc, b"axba")?.as_str(), want);
    Ok(())
}
