//! Where the run of each key lies in a sorted list.

ghost use Rattle.std.specs.Prelude.{◌≡◌, ◌≢◌, ℕ, ◌^◌, ◌<◌, ◌≤◌, length, slice_index, Contains, IfOk};
ghost use Rattle.yr_automaton.specs.Keys.{AreKeys, AreRuns, NeverFalls};

use std::alloc::Global;
use yr_base::NoMemory;

// The place of the first number from `from` on that is another.
fn end_of_run(xs: &[u64], from: usize, key: u64) -> usize
    requires { from ≤ length xs.now }
    ensures range { (from ≤ result) × (result ≤ length xs.now) }
    ensures run { (k : ℕ) → from ≤ k → k < result → slice_index xs.now k ≡ key }
    ensures end { result < length xs.now → slice_index xs.now result ≢ key }
{
    let mut at = from;
    while at < xs.len() && xs[at] == key {
        at += 1;
    }
    at
}

/// For each key where its run in `xs` begins, and at last the length of `xs`.
pub fn runs(alloc: Global, keys: &[u64], xs: &[u64]) -> Result<Vec<u32>, NoMemory>
    requires keys { AreKeys keys.now }
    requires few { length xs.now < 2 ^ 32 }
    requires sorted { NeverFalls xs.now }
    requires known { (k : ℕ) → k < length xs.now → Contains keys.now (slice_index xs.now k) }
    ensures { IfOk result (λ starts. AreRuns keys.now xs.now starts.items) }
{
    let mut starts = Vec::new(alloc);
    starts.push(0)?;
    let mut at = 0;
    for key in keys {
        at = end_of_run(xs, at, *key);
        starts.push(at as u32)?;
    }
    Ok(starts)
}
