//! The levels of operators.

ghost use Rattle.std.specs.Prelude.{◌≡◌};
ghost use Rattle.yr_parser.specs.Levels as spec;
ghost use Rattle.yr_parser.specs.Reading as reading;

use yr_syntax::Infix;

/// A level of operators, from the loosest to the tightest.
#[derive(Clone, Copy, Debug, PartialEq, Eq)]
pub enum Level {
    Or,
    And,
    Equal,
    Rel,
    Bits,
    Bxor,
    Band,
    Shift,
    Sum,
    Prod,
}

/// The level of an operator.
pub fn level_of(op: Infix) -> Level
    ensures { result ≡ spec.level_of op }
{
    match op {
        Infix::Or => Level::Or,
        Infix::And => Level::And,
        Infix::Equal
        | Infix::NotEqual
        | Infix::Contains
        | Infix::IContains
        | Infix::StartsWith
        | Infix::IStartsWith
        | Infix::EndsWith
        | Infix::IEndsWith
        | Infix::IEquals => Level::Equal,
        Infix::Less | Infix::LessOrEqual | Infix::Greater | Infix::GreaterOrEqual => Level::Rel,
        Infix::BitOr => Level::Bits,
        Infix::BitXor => Level::Bxor,
        Infix::BitAnd => Level::Band,
        Infix::ShiftLeft | Infix::ShiftRight => Level::Shift,
        Infix::Add | Infix::Subtract => Level::Sum,
        Infix::Multiply | Infix::Divide | Infix::Remainder => Level::Prod,
    }
}

/// What stands between brackets: a whole condition, or a number.
#[derive(Clone, Copy, Debug, PartialEq, Eq)]
pub enum Entry {
    Or,
    Bits,
}

#[tactic(auto, unfolding(crate::specs::Reading::same_level))]
pub fn same_level(a: Level, b: Level) -> bool
    ensures { result ≡ reading.same_level a b }
{
    a == b
}
