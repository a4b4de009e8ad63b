//! Runs of prefix operators, which are taken in loops.

ghost use Rattle.std.specs.Prelude.{◌≡◌, ◌≤◌, IfOk};
ghost use Rattle.std.specs.Option.{option_map};
ghost use Rattle.yr_rules.specs.NodeTree.{tree_of, boxed, Prefix};
ghost use Rattle.yr_syntax.specs.Forms.{HasForms};
ghost use Rattle.yr_syntax.specs.Condition.{tree_of as condition_of};
ghost use Rattle.yr_syntax.specs.Height.{height};
ghost use Rattle.yr_syntax.specs.declared.condition.Cond.{size-Cond};
ghost use Rattle.yr_conditions.specs.Shapes.{shape_of};
ghost use Rattle.yr_conditions.specs.NodeViews.{wrapped};

use std::alloc::Global;
use yr_base::NoMemory;
use yr_rules::{Node, PrefixOp};
use yr_syntax::Cond;

/// A prefix operator with those that follow it, the outermost first, and what stands behind them.
#[inline(never)]
pub fn prefixes<'a>(
    alloc: Global,
    op: PrefixOp,
    inner: &'a Cond,
) -> Result<(Vec<PrefixOp>, &'a Cond), NoMemory>
    requires { HasForms (condition_of inner.now) }
    ensures shape { IfOk result (λ r. (exact : _) (readers : _) (around : _) (scopes : _)
        → option_map (Prefix op) (shape_of exact readers around (condition_of inner.now) scopes)
        ≡ option_map (wrapped r.0.items) (shape_of exact readers around (condition_of r.1.now) scopes)) }
    ensures height { IfOk result (λ r. height (condition_of r.1.now) ≡ height (condition_of inner.now)) }
    ensures forms { IfOk result (λ r. HasForms (condition_of r.1.now)) }
    ensures low { IfOk result (λ r. size-Cond r.1.now ≤ size-Cond inner.now) }
{
    let mut ops = Vec::new(alloc);
    ops.push(op)?;
    let mut operand = inner;
    while let Cond::Prefix { op, inner } = operand {
        ops.push(*op)?;
        operand = inner;
    }
    Ok((ops, operand))
}

/// A checked condition behind prefix operators.
fn wrap(alloc: Global, mut ops: Vec<PrefixOp>, node: Box<Node>) -> Result<Node, NoMemory>
    ensures { IfOk result (λ n. tree_of n ≡ wrapped ops.items (tree_of node.value)) }
{
    let mut whole = node;
    while let Some(op) = ops.pop() {
        whole = Box::new(alloc, Node::Prefix { op, inner: whole })?;
    }
    Ok(Box::into_inner(whole))
}

/// What is made of an operand behind prefix operators, where something is made of it.
pub fn prefixed(
    alloc: Global,
    ops: Vec<PrefixOp>,
    operand: Option<Box<Node>>,
) -> Result<Option<Node>, NoMemory>
    ensures { IfOk result (λ n. option_map tree_of n ≡ option_map (wrapped ops.items) (option_map tree_of (boxed operand))) }
{
    match operand {
        Some(operand) => Ok(Some(wrap(alloc, ops, operand)?)),
        None => Ok(None),
    }
}
