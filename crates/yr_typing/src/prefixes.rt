//! A run of prefix operators.

ghost use Rattle.std.specs.Prelude.{◌≡◌, Some};
ghost use Rattle.yr_base.specs.declared.value.Kind.TheVariants as kind;
ghost use Rattle.yr_rules.specs.Kinds.{prefix_kind as prefix_kind_of};
ghost use Rattle.yr_typing.specs.Prefixes.{kind_behind};

use crate::operator_kind::prefix_kind;
use yr_rules::{Kind, PrefixOp};

/// What a run of prefix operators makes of a value of each kind.
#[derive(Clone, Copy)]
pub struct Prefixes {
    number: Option<Kind>,
    flag: Option<Kind>,
    text: Option<Kind>,
}

/// No operator.
pub fn no_prefix() -> Prefixes
    ensures { result ≡ record { number = Some kind.Number; flag = Some kind.Flag; text = Some kind.Text } }
{
    Prefixes {
        number: Some(Kind::Number),
        flag: Some(Kind::Flag),
        text: Some(Kind::Text),
    }
}

/// What the run makes of a value.
pub fn behind(run: Prefixes, operand: Option<Kind>) -> Option<Kind>
    ensures { result ≡ kind_behind run operand }
{
    match operand {
        Some(Kind::Number) => run.number,
        Some(Kind::Flag) => run.flag,
        Some(Kind::Text) => run.text,
        None => None,
    }
}

/// The run with one more operator at its end.
pub fn then(run: Prefixes, op: PrefixOp) -> Prefixes
    ensures { (operand : _) → kind_behind result operand ≡ kind_behind run (prefix_kind_of op operand) }
{
    Prefixes {
        number: behind(run, prefix_kind(op, Some(Kind::Number))),
        flag: behind(run, prefix_kind(op, Some(Kind::Flag))),
        text: behind(run, prefix_kind(op, Some(Kind::Text))),
    }
}
