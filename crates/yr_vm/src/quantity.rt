//! The quantifiers of loops and sets, whose numbers stand on the stack.

ghost use Rattle.std.specs.Prelude.{◌≡◌, ◌+◌, ◌≤◌, length, take, drop};
ghost use Rattle.yr_values.specs.Values.{shown};
ghost use Rattle.yr_answer.specs.Turns.{judged};
ghost use Rattle.yr_machine.specs.Operations.{quantifier_of};
ghost use Rattle.yr_machine.specs.Roles.{quantity};

use crate::stack::Stack;
use yr_base::Value;
use yr_image::QuantifierKind;
use yr_values::Quantifier;

/// How many values a quantifier takes.
#[inline]
pub fn quantity(kind: QuantifierKind) -> usize
    ensures count { result ≡ length (quantity kind) }
    ensures few { result ≤ 1 }
{
    match kind {
        QuantifierKind::Number | QuantifierKind::Percent => 1,
        _ => 0,
    }
}

/// The quantifier, with its number below so many values. None where that is undefined.
#[inline]
pub fn quantifier(stack: &Stack<'_>, depth: usize, kind: QuantifierKind) -> Option<Quantifier>
    requires { depth + length (quantity kind) ≤ length stack.now }
    ensures { result ≡ quantifier_of kind (take (length (quantity kind)) (drop depth stack.now)) }
{
    match kind {
        QuantifierKind::All => Some(Quantifier::All),
        QuantifierKind::Any => Some(Quantifier::Any),
        QuantifierKind::Nil => Some(Quantifier::Nil),
        QuantifierKind::Number => match stack.below(depth) {
            Value::Number(n) => Some(Quantifier::Number(*n)),
            _ => None,
        },
        QuantifierKind::Percent => match stack.below(depth) {
            Value::Number(n) => Some(Quantifier::Percent(*n)),
            _ => None,
        },
    }
}
