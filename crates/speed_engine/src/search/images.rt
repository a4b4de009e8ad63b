//! Images of one string with many atoms, one split for each.

use crate::dice::Dice;
use crate::image_bytes::{put, with_header};
use std::alloc::{AllocError, Global};
use yr_automaton::{Automaton, build};
use yr_base::{Atom, NoMemory};

/// What stands after each atom.
#[derive(Clone, Copy)]
pub enum After {
    Nothing,
    /// The literal `b`.
    Literal,
    /// A program that reads a digit.
    Digit,
    /// A program that reads any bytes and then a digit.
    AnyThenDigit,
}

/// The pool: the rule's name, and the literal.
const POOL: &[u8; 2] = b"ab";

/// Atoms of four bytes among so many letters, from a first one on.
pub fn atoms(alloc: Global, count: u32, first: u8, letters: u8) -> Result<Vec<Atom>, AllocError> {
    let mut atoms = Vec::new(alloc);
    let mut dice = Dice::new(7);
    for _ in 0..count {
        let mut bytes = [0u8; 4];
        for k in 0..4usize {
            bytes[k] = first.wrapping_add(dice.byte(letters));
        }
        atoms.push(Atom { bytes, len: 4 })?;
    }
    Ok(atoms)
}

// A split round an atom of four bytes: kind, place and length of what stands after it.
fn put_split(bytes: &mut Vec<u8>, after: After) -> Result<(), AllocError> {
    let (kind, place, length) = match after {
        After::Nothing => (0, 0, 0),
        After::Literal => (1, 1, 1),
        After::Digit => (2, 0, 0),
        After::AnyThenDigit => (2, 1, 0),
    };
    put(bytes, &[0, kind << 16, 4 << 8, 0, 0, place, length, 0])
}

// The sets of the digits and of all bytes, and the two programs.
fn put_programs(bytes: &mut Vec<u8>) -> Result<(), AllocError> {
    put(bytes, &[0, 0x03ff_0000, 0, 0, 0, 0, 0, 0])?;
    put(bytes, &[0xffff_ffff; 8])?;
    put(bytes, &[0, 2, 2, 4])?;
    put(bytes, &[1, 1, 0, 0, 0, 0, 0, 0])?;
    put(bytes, &[2, 1, 2, 0, 1, 0, 0, 1])?;
    put(bytes, &[1, 3, 0, 0, 0, 0, 0, 0])
}

// The rows in front of the automaton's: a rule, its string, a split for each atom, and the
// programs.
fn put_front(bytes: &mut Vec<u8>, splits: usize, after: After) -> Result<(), AllocError> {
    put(bytes, &[0, 1, 0, 0, 0, 1, 0, 2, 0, 1])?;
    put(bytes, &[0, 1, 0, 0])?;
    for _ in 0..splits {
        put_split(bytes, after)?;
    }
    put_programs(bytes)
}

// How many rows each section has.
fn counts(splits: usize, automaton: &Automaton) -> [u32; 14] {
    let rows = automaton.rows();
    let nodes = (rows.nodes.len() / 24 % 0x1_0000_0000) as u32;
    let edges = (rows.edges.len() / 8 % 0x1_0000_0000) as u32;
    let outputs = (rows.outputs.len() / 4 % 0x1_0000_0000) as u32;
    let splits = (splits % 0x1_0000_0000) as u32;
    [1, 0, 0, 1, splits, 2, 2, 6, nodes, edges, outputs, 0, 2, 2]
}

/// The image whose only string is any of these atoms with what stands after it, and whose rule
/// holds of every file.
pub fn image(alloc: Global, atoms: &[Atom], after: After) -> Result<Vec<u8>, NoMemory> {
    if atoms.len() >= 1 << 30 {
        return Err(NoMemory);
    }
    let automaton = build(alloc, atoms)?;
    let mut rows = Vec::new(alloc);
    put_front(&mut rows, atoms.len(), after)?;
    let automaton_rows = automaton.rows();
    rows.extend_from_slice(automaton_rows.nodes)?;
    rows.extend_from_slice(automaton_rows.edges)?;
    rows.extend_from_slice(automaton_rows.outputs)?;
    put(&mut rows, &[0x0103, 0, 0, 0, 0, 0, 0, 0])?;
    rows.extend_from_slice(POOL)?;
    Ok(with_header(alloc, &counts(atoms.len(), &automaton), &rows)?)
}
