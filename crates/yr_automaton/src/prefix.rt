//! The keys of all prefixes of atoms, and the atoms in the order of their keys.

ghost use Rattle.std.specs.Prelude.{◌⊎◌, Contains, slice_index, ◌≡◌, ℕ, ◌+◌, ◌*◌, ◌^◌, ◌<◌, ◌≤◌, ◌++◌, length, OnOk, IfOk};
ghost use Rattle.yr_automaton.specs.Atoms.{word};
ghost use Rattle.yr_automaton.specs.Keys.{AllBytes, key_after, prefix_keys, AreKeys, NeverFalls};
ghost use Rattle.yr_automaton.specs.Prepared.{Collected, Prepared};

use std::alloc::Global;
use yr_base::{Atom, NoMemory};

// Adds the key of each prefix but the empty one. The last is the atom's own.
fn add_prefixes(keys: &mut Vec<u64>, atom: &Atom) -> Result<u64, NoMemory>
    ensures key { IfOk result (λ key. key ≡ key_after 0 (word atom.now)) }
    ensures bytes { OnOk result (AllBytes (word atom.now)) }
    ensures short { length (word atom.now) ≤ 4 }
    ensures added { OnOk result (keys.new.items ≡ keys.old.items ++ prefix_keys 0 (word atom.now)) }
{
    let mut key = 0;
    for byte in &atom.bytes[..atom.len as usize] {
        key = key * 256 + u64::from(*byte) + 1;
        keys.push(key)?;
    }
    Ok(key)
}

// 0, and then each of the sorted keys once.
fn distinct(alloc: Global, sorted: &[u64]) -> Result<Vec<u64>, NoMemory>
    requires { NeverFalls sorted.now }
    ensures are { IfOk result (λ keys. AreKeys keys.items) }
    ensures few { IfOk result (λ keys. length keys.items ≤ length sorted.now + 1) }
    ensures all { IfOk result (λ keys. (x : ℕ) → Contains sorted.now x → Contains keys.items x) }
    ensures only { IfOk result (λ keys. (x : ℕ) → Contains keys.items x → (x ≡ 0) ⊎ (Contains sorted.now x)) }
{
    let mut keys = Vec::new(alloc);
    keys.push(0)?;
    let mut last = 0;
    for key in sorted {
        if *key > last {
            keys.push(*key)?;
            last = *key;
        }
    }
    Ok(keys)
}

// The keys of all prefixes, and each atom's key with its number.
fn collect(alloc: Global, atoms: &[Atom]) -> Result<(Vec<u64>, Vec<(u64, u32)>), NoMemory>
    requires { length atoms.now < 2 ^ 30 }
    ensures { IfOk result (λ r. Collected atoms.now (length atoms.now) r.0.items r.1.items) }
{
    let mut numbered = Vec::new(alloc);
    let mut all = Vec::new(alloc);
    for (i, atom) in atoms.iter().enumerate() {
        let key = add_prefixes(&mut all, atom)?;
        numbered.push((key, i as u32))?;
    }
    Ok((all, numbered))
}

/// The keys of all prefixes in order, each once, and the atoms' numbers in the order of their keys.
pub fn prepare(alloc: Global, atoms: &[Atom]) -> Result<(Vec<u64>, Vec<(u64, u32)>), NoMemory>
    requires { length atoms.now < 2 ^ 30 }
    ensures { IfOk result (λ r. Prepared atoms.now r.0.items r.1.items) }
{
    let (mut all, mut numbered) = collect(alloc, atoms)?;
    all.sort_unstable();
    numbered.sort_by_key(|atom| atom.0)?;
    let keys = distinct(alloc, &all)?;
    Ok((keys, numbered))
}
