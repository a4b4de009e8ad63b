//! Runs of prefix operators.

ghost use Rattle.std.specs.Prelude.{◌≡◌, OnOk};
ghost use Rattle.yr_rules.specs.NodeTree.{NodeTree, Prefix};
ghost use Rattle.yr_emission.specs.Prefixed.{prefixed, PutUnder};

use crate::choosing::prefix_row;
use crate::putting::put;
use yr_base::NoMemory;
use yr_image::CodeRow;
use yr_rules::PrefixOp;

/// One more operator on the way in.
pub fn go_under(ops: &mut Vec<PrefixOp>, op: PrefixOp) -> Result<(), NoMemory>
    ensures { OnOk result ((c : NodeTree) → prefixed ops.new.items c ≡ prefixed ops.old.items (Prefix op c)) }
{
    ops.push(op)?;
    Ok(())
}

/// The operators of a run of prefixes, from the last one on.
pub fn put_prefixes(rows: &mut Vec<CodeRow>, ops: Vec<PrefixOp>) -> Result<(), NoMemory>
    ensures { OnOk result (PutUnder ops.items rows.old.items rows.new.items) }
{
    let mut left = ops;
    while let Some(op) = left.pop() {
        put(rows, prefix_row(op))?;
    }
    Ok(())
}
