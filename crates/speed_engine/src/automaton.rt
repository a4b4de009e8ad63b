//! The automaton of drawn atoms, built and walked over drawn bytes.

ghost use Rattle.std.specs.Prelude.{◌≡◌, ◌<◌, ◌≤◌, ◌^◌, IfOk, length};
ghost use Rattle.yr_automaton.specs.Rows.{node_count, AreWellformedRows};

use crate::dice::{Dice, drawn};
use crate::stopwatch::Stopwatch;
use anyhow::bail;
use std::alloc::{AllocError, Global};
use std::marker::Brand;
use std::sync::ledger::{Blank, Ledger};
use yr_automaton::{AutomatonRows, build};
use yr_base::{Atom, Steps};

/// Prints how many nodes and outputs two automata have.
pub fn show_all(rt: HostRuntime) -> anyhow::Result<()> {
    walk(rt, 1_000, 10, 100_000)?;
    walk(rt, 10_000, 40, 100_000)
}

/// Prints how long the building and the walks take.
pub fn time_all(rt: HostRuntime) -> anyhow::Result<()> {
    for letters in [26, 250] {
        time_walk(rt, 1_000, letters, 10_000_000)?;
        time_walk(rt, 100_000, letters, 10_000_000)?;
    }
    time_walk(rt, 1_000_000, 250, 10_000_000)
}

fn make_atoms(alloc: Global, count: u32, letters: u8) -> Result<Vec<Atom>, AllocError>
    ensures { IfOk result (λ atoms. length atoms.items ≡ count) }
{
    let mut dice = Dice::new(7);
    let mut atoms = Vec::new(alloc);
    for i in 0..count {
        dice.stir(u64::from(i));
        let bytes = [
            dice.byte(letters),
            dice.byte(letters),
            dice.byte(letters),
            dice.byte(letters),
        ];
        atoms.push(Atom { bytes, len: 4 })?;
    }
    Ok(atoms)
}

// How many outputs there are after all fronts of the text.
fn count_outputs<L: Ledger>(blank: Blank, rows: &AutomatonRows<'_>, text: &[u8]) -> u64
    requires name { blank.name ≡ L.name }
    requires parts { blank.parts ≡ L.parts }
    requires blank { 0 < blank.parts }
    requires wellformed { AreWellformedRows rows.now }
    requires some { 0 < node_count rows.now }
{
    let mut steps = Steps::<L>::begin(blank);
    let mut at = 0;
    let mut outputs: u64 = 0;
    for byte in text {
        at = rows.step(at, *byte, &mut steps);
        for _output in rows.outputs(at) {
            outputs = outputs.wrapping_add(1);
        }
    }
    outputs
}

fn walk(rt: HostRuntime, count: u32, letters: u8, bytes: u32) -> anyhow::Result<()>
    requires { count < 2 ^ 30 }
{
    let alloc = rt.alloc();
    let atoms = make_atoms(alloc, count, letters)?;
    let text = drawn(alloc, bytes, letters)?;
    let Ok(automaton) = build(alloc, &atoms) else {
        bail!("no memory");
    };
    let rows = automaton.rows();
    let nodes = rows.nodes.len() / 24;
    let outputs = count_outputs::<Brand>(Blank::new(1), &rows, &text);
    println!(rt;
        "{count} atoms of {letters} letters, {nodes} nodes: {outputs} outputs in {bytes} bytes"
    )?;
    Ok(())
}

fn time_walk(rt: HostRuntime, count: u32, letters: u8, bytes: u32) -> anyhow::Result<()>
    requires { count < 2 ^ 30 }
{
    let alloc = rt.alloc();
    let atoms = make_atoms(alloc, count, letters)?;
    let text = drawn(alloc, bytes, letters)?;
    let mut building = Stopwatch::new();
    building.start(rt)?;
    let Ok(automaton) = build(alloc, &atoms) else {
        bail!("no memory");
    };
    building.stop(rt)?;
    let rows = automaton.rows();
    let mut walking = Stopwatch::new();
    walking.start(rt)?;
    let outputs = count_outputs::<Brand>(Blank::new(1), &rows, &text);
    walking.stop(rt)?;
    let (built, rate) = (building.least * 1000.0, walking.millions(text.len()));
    println!(rt;
        "{count} atoms of {letters} letters: built in {built:.0} ms; {bytes} bytes at {rate:.0} MB/s, {outputs} outputs"
    )?;
    Ok(())
}
