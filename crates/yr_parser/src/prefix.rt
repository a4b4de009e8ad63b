//! Runs of prefix operators. They nest as deep as they are long, so a loop reads and another writes them: no call stands for an operator.

ghost use Rattle.std.specs.Prelude.{◌≡◌, IfOk, OnErr};
ghost use Rattle.yr_parser.specs.Reading as reading;
ghost use Rattle.yr_syntax.specs.Condition as tree;

use crate::cursor::Cursor;
use crate::making;
use std::alloc::Global;
use yr_base::NoMemory;
use yr_syntax::{Cond, PrefixOp};

/// The operators `-` and `~` that come next, one after another.
#[tactic(auto, using(crate::proofs::Steps::prefix_rules))]
pub fn prefixes(alloc: Global, tokens: &mut Cursor<'_>) -> Result<Vec<PrefixOp>, NoMemory>
    ensures operators { IfOk result (λ v. v.items ≡ reading.run_of reading.prefix_at tokens.old) }
    ensures rest { IfOk result (λ v. tokens.new ≡ reading.after_run reading.prefix_at tokens.old) }
{
    let mut ops = Vec::new(alloc);
    while let Some(op) = tokens.prefix() {
        ops.push(op)?;
        tokens.skip();
    }
    Ok(ops)
}

/// The operators `not` and `defined` that come next, one after another.
#[tactic(auto, using(crate::proofs::Steps::negation_rules))]
pub fn negations(alloc: Global, tokens: &mut Cursor<'_>) -> Result<Vec<PrefixOp>, NoMemory>
    ensures operators { IfOk result (λ v. v.items ≡ reading.run_of reading.negates_at tokens.old) }
    ensures rest { IfOk result (λ v. tokens.new ≡ reading.after_run reading.negates_at tokens.old) }
{
    let mut ops = Vec::new(alloc);
    while let Some(op) = tokens.negates() {
        ops.push(op)?;
        tokens.skip();
    }
    Ok(ops)
}

/// An operand with these operators before it.
pub fn prefixed(alloc: Global, ops: Vec<PrefixOp>, operand: Cond) -> Result<Cond, NoMemory>
    ensures { IfOk result (λ c. tree.tree_of c ≡ reading.prefixed ops.items (tree.tree_of operand)) }
{
    let mut left = ops;
    let mut whole = operand;
    while let Some(op) = left.pop() {
        whole = making::prefix(alloc, op, whole)?;
    }
    Ok(whole)
}
