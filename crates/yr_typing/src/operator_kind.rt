//! The kinds that operators give.

ghost use Rattle.std.specs.Prelude.{◌≡◌};
ghost use Rattle.yr_rules.specs.Kinds as spec;

use yr_rules::{Infix, Kind, PrefixOp};

/// The kind that a number makes.
pub fn of_number(operand: Option<Kind>, made: Kind) -> Option<Kind>
    ensures { result ≡ spec.of_number operand made }
{
    match operand {
        Some(Kind::Number) => Some(made),
        _ => None,
    }
}

/// The kind that a text makes.
pub fn of_text(operand: Option<Kind>, made: Kind) -> Option<Kind>
    ensures { result ≡ spec.of_text operand made }
{
    match operand {
        Some(Kind::Text) => Some(made),
        _ => None,
    }
}

/// Any value makes a flag.
pub fn of_value(operand: Option<Kind>) -> Option<Kind>
    ensures { result ≡ spec.of_value operand }
{
    match operand {
        Some(_) => Some(Kind::Flag),
        None => None,
    }
}

/// The second, where the first is there.
pub fn both(left: Option<Kind>, right: Option<Kind>) -> Option<Kind>
    ensures { result ≡ spec.both left right }
{
    match left {
        Some(_) => right,
        None => None,
    }
}

/// The kind that two numbers make.
pub fn of_numbers(left: Option<Kind>, right: Option<Kind>, made: Kind) -> Option<Kind>
    ensures { result ≡ spec.of_numbers left right made }
{
    both(of_number(left, made), of_number(right, made))
}

fn of_texts(left: Option<Kind>, right: Option<Kind>) -> Option<Kind>
    ensures { result ≡ spec.of_texts left right }
{
    both(of_text(left, Kind::Flag), of_text(right, Kind::Flag))
}

fn of_flags(left: Option<Kind>, right: Option<Kind>) -> Option<Kind>
    ensures { result ≡ spec.of_flags left right }
{
    match (left, right) {
        (Some(Kind::Flag), Some(Kind::Flag)) => Some(Kind::Flag),
        _ => None,
    }
}

fn of_ordered(left: Option<Kind>, right: Option<Kind>) -> Option<Kind>
    ensures { result ≡ spec.of_ordered left right }
{
    of_numbers(left, right, Kind::Flag).or(of_texts(left, right))
}

fn of_alike(left: Option<Kind>, right: Option<Kind>) -> Option<Kind>
    ensures { result ≡ spec.of_alike left right }
{
    of_ordered(left, right).or(of_flags(left, right))
}

pub fn prefix_kind(op: PrefixOp, operand: Option<Kind>) -> Option<Kind>
    ensures { result ≡ spec.prefix_kind op operand }
{
    match op {
        PrefixOp::Minus | PrefixOp::Flip => of_number(operand, Kind::Number),
        PrefixOp::Not | PrefixOp::Defined => of_value(operand),
    }
}

pub fn infix_kind(op: Infix, left: Option<Kind>, right: Option<Kind>) -> Option<Kind>
    ensures { result ≡ spec.infix_kind op left right }
{
    match op {
        Infix::Or | Infix::And => both(of_value(left), of_value(right)),
        Infix::Equal | Infix::NotEqual => of_alike(left, right),
        Infix::Less | Infix::LessOrEqual | Infix::Greater | Infix::GreaterOrEqual => {
            of_ordered(left, right)
        }
        Infix::Contains
        | Infix::IContains
        | Infix::StartsWith
        | Infix::IStartsWith
        | Infix::EndsWith
        | Infix::IEndsWith
        | Infix::IEquals => of_texts(left, right),
        _ => of_numbers(left, right, Kind::Number),
    }
}
