//! How loops start.

ghost use Rattle.std.specs.Prelude.{◌≡◌, ℕ};
ghost use Rattle.yr_rules.specs.NodeTree.{asked_of, domain_of};
ghost use Rattle.yr_emission.specs.Parts.{loop_row};
ghost use Rattle.yr_image.specs.Sayable.{IsNarrow};
ghost use Rattle.yr_emission.specs.Starts.{begin_of};

use crate::choosing::quantifier_row;
use yr_image::{Instruction, QuantifierKind};
use yr_rules::{NodeOver, NodeQuant};

/// A loop over a range, a list with so many items, or strings.
#[derive(Clone, Copy, Debug, PartialEq, Eq)]
pub enum LoopStart {
    Range(QuantifierKind),
    List(QuantifierKind, u64),
    Strings(QuantifierKind),
}

/// The start of a loop over numbers.
pub fn start_of(quant: &NodeQuant, over: &NodeOver) -> LoopStart
    ensures { (rows : ℕ) → begin_of result rows ≡ loop_row (asked_of quant.now) (domain_of over.now) }
{
    let quantifier = quantifier_row(quant);
    match over {
        NodeOver::Range(_) | NodeOver::Entries(_) => LoopStart::Range(quantifier),
        NodeOver::List(items) => LoopStart::List(quantifier, items.len() as u64),
    }
}

/// The first instruction of a loop, whose end and list rows are given.
pub fn begin_row(start: LoopStart, end: u32, first: u32, rows: u32) -> Instruction
    ensures row { result ≡ begin_of start rows end first }
    ensures narrow { IsNarrow result }
{
    match start {
        LoopStart::Range(quantifier) => Instruction::LoopRange { quantifier, end },
        LoopStart::List(quantifier, items) => Instruction::LoopList {
            quantifier,
            end,
            items,
        },
        LoopStart::Strings(quantifier) => Instruction::LoopStrings {
            quantifier,
            end,
            first: u64::from(first),
            rows: u64::from(rows),
        },
    }
}
