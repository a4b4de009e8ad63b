//! One more match.

ghost use Rattle.std.specs.Prelude.{◌≡◌, ℕ, ◌+◌, ◌≤◌, Some, OnOk};
ghost use Rattle.yr_hits.specs.Walks.{with_match};

use std::sync::ledger::Ledger;
use yr_base::{NoMemory, Steps};

/// A match from a start to an end, where there is one.
pub fn add_span<L: Ledger>(
    start: u32,
    end: Option<u32>,
    list: &mut Vec<(u32, u32)>,
    steps: &mut Steps<L>,
) -> Result<(), NoMemory>
    requires { (j : ℕ) → end ≡ Some j → start ≤ j }
    ensures list { OnOk result (list.new.items ≡ with_match start end list.old.items) }
    ensures least_cost { steps.old ≤ steps.new }
    ensures most_cost { steps.new ≤ steps.old + 1 }
{
    let Some(end) = end else {
        return Ok(());
    };
    steps.tick();
    list.push((start, end - start))?;
    Ok(())
}
