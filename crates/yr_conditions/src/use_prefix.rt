//! Runs of prefix operators.

ghost use Rattle.std.specs.Prelude.{◌≡◌, ◌≤◌};
ghost use Rattle.yr_syntax.specs.Condition.{tree_of};
ghost use Rattle.yr_syntax.specs.declared.condition.Cond.{size-Cond};
ghost use Rattle.yr_conditions.specs.Uses.{uses_of};

use yr_syntax::Cond;

/// What stands behind all prefix operators.
pub fn behind_prefixes(condition: &Cond) -> &Cond
    ensures same { (around : _) (scopes : _) → uses_of around (tree_of result.now) scopes ≡ uses_of around (tree_of condition.now) scopes }
    ensures low { size-Cond result.now ≤ size-Cond condition.now }
{
    let mut operand = condition;
    while let Cond::Prefix { inner, .. } = operand {
        operand = inner;
    }
    operand
}
