//! Which instruction a form of a condition has.

ghost use Rattle.std.specs.Prelude.{◌≡◌, map};
ghost use Rattle.yr_rules.specs.NodeTree.{asked_of, where_of, set_of};
ghost use Rattle.yr_emission.specs.Parts.{prefix_row, infix_row, reader_row, name_of, found_row, quantifier_row, form_of, skips_at, skip_row, prefix_answer, infix_answer};

use yr_base::Kind;
use yr_image::{
    Arithmetic, Comparison, Instruction, NamedString, OfForm, QuantifierKind, Reader as RowReader,
    TextTest,
};
use yr_rules::{Infix, Members, NodePlace, NodeQuant, PrefixOp, Reader, StringRef};

/// The instruction of a prefix operator.
pub fn prefix_row(op: PrefixOp) -> Instruction
    ensures { result ≡ prefix_row op }
{
    match op {
        PrefixOp::Minus => Instruction::Negate,
        PrefixOp::Flip => Instruction::Flip,
        PrefixOp::Not => Instruction::Not,
        PrefixOp::Defined => Instruction::Defined,
    }
}

/// The kind that a prefix operator makes.
pub fn prefix_answer(op: PrefixOp) -> Kind
    ensures { result ≡ prefix_answer op }
{
    match op {
        PrefixOp::Minus | PrefixOp::Flip => Kind::Number,
        PrefixOp::Not | PrefixOp::Defined => Kind::Flag,
    }
}

/// The instruction of an operator whose operands stand on the stack, the first of which has the kind.
pub fn infix_row(op: Infix, kind: Kind) -> Instruction
    ensures { result ≡ infix_row op kind }
{
    match op {
        Infix::Or | Infix::And => Instruction::Truth,
        Infix::Equal => compare(Comparison::Equal, kind),
        Infix::NotEqual => compare(Comparison::NotEqual, kind),
        Infix::Contains => Instruction::Test(TextTest::Contains),
        Infix::IContains => Instruction::Test(TextTest::IContains),
        Infix::StartsWith => Instruction::Test(TextTest::StartsWith),
        Infix::IStartsWith => Instruction::Test(TextTest::IStartsWith),
        Infix::EndsWith => Instruction::Test(TextTest::EndsWith),
        Infix::IEndsWith => Instruction::Test(TextTest::IEndsWith),
        Infix::IEquals => Instruction::Test(TextTest::IEquals),
        Infix::Less => compare(Comparison::Less, kind),
        Infix::LessOrEqual => compare(Comparison::LessOrEqual, kind),
        Infix::Greater => compare(Comparison::Greater, kind),
        Infix::GreaterOrEqual => compare(Comparison::GreaterOrEqual, kind),
        Infix::BitOr => Instruction::Arith(Arithmetic::BitOr),
        Infix::BitXor => Instruction::Arith(Arithmetic::BitXor),
        Infix::BitAnd => Instruction::Arith(Arithmetic::BitAnd),
        Infix::ShiftLeft => Instruction::Arith(Arithmetic::ShiftLeft),
        Infix::ShiftRight => Instruction::Arith(Arithmetic::ShiftRight),
        Infix::Add => Instruction::Arith(Arithmetic::Add),
        Infix::Subtract => Instruction::Arith(Arithmetic::Subtract),
        Infix::Multiply => Instruction::Arith(Arithmetic::Multiply),
        Infix::Divide => Instruction::Arith(Arithmetic::Divide),
        Infix::Remainder => Instruction::Arith(Arithmetic::Remainder),
    }
}

fn compare(comparison: Comparison, kind: Kind) -> Instruction
    ensures { result ≡ Instruction.Compare comparison kind }
{
    Instruction::Compare { comparison, kind }
}

/// The kind that an operator makes.
pub fn infix_answer(op: Infix) -> Kind
    ensures { result ≡ infix_answer op }
{
    match op {
        Infix::BitOr
        | Infix::BitXor
        | Infix::BitAnd
        | Infix::ShiftLeft
        | Infix::ShiftRight
        | Infix::Add
        | Infix::Subtract
        | Infix::Multiply
        | Infix::Divide
        | Infix::Remainder => Kind::Number,
        _ => Kind::Flag,
    }
}

/// The truth of the first operand at which an operator skips its second one, if it ever does.
pub fn skips_at(op: Infix) -> Option<bool>
    ensures { result ≡ skips_at op }
{
    match op {
        Infix::Or => Some(true),
        Infix::And => Some(false),
        _ => None,
    }
}

/// The skip to an end that leaves this truth.
pub fn skip_row(truth: bool, end: u32) -> Instruction
    ensures { result ≡ skip_row truth end }
{
    if truth {
        Instruction::SkipTrue(end)
    } else {
        Instruction::SkipFalse(end)
    }
}

/// The reader of an instruction.
pub fn reader_row(reader: Reader) -> RowReader
    ensures { result ≡ reader_row reader }
{
    match reader {
        Reader::Int8 => RowReader::Int8,
        Reader::Int16 => RowReader::Int16,
        Reader::Int32 => RowReader::Int32,
        Reader::Uint8 => RowReader::Uint8,
        Reader::Uint16 => RowReader::Uint16,
        Reader::Uint32 => RowReader::Uint32,
        Reader::Int8Be => RowReader::Int8Be,
        Reader::Int16Be => RowReader::Int16Be,
        Reader::Int32Be => RowReader::Int32Be,
        Reader::Uint8Be => RowReader::Uint8Be,
        Reader::Uint16Be => RowReader::Uint16Be,
        Reader::Uint32Be => RowReader::Uint32Be,
    }
}

/// The string that an instruction names.
pub fn name_of(string: StringRef) -> NamedString
    ensures { result ≡ name_of string }
{
    match string {
        StringRef::Known(k) => NamedString::Known(k),
        StringRef::Current(k) => NamedString::Current(k),
    }
}

/// What is asked of a string, at a place on the stack.
pub fn found_row(place: &NodePlace, string: NamedString) -> Instruction
    ensures { result ≡ found_row (where_of place.now) string }
{
    match place {
        NodePlace::Anywhere => Instruction::Has(string),
        NodePlace::At(_) => Instruction::HasAt(string),
        NodePlace::Within(_) => Instruction::HasIn(string),
    }
}

/// A quantifier without its number.
pub fn quantifier_row(quant: &NodeQuant) -> QuantifierKind
    ensures { result ≡ quantifier_row (asked_of quant.now) }
{
    match quant {
        NodeQuant::All => QuantifierKind::All,
        NodeQuant::Any => QuantifierKind::Any,
        NodeQuant::Nil => QuantifierKind::Nil,
        NodeQuant::Number(_) => QuantifierKind::Number,
        NodeQuant::Percent(_) => QuantifierKind::Percent,
    }
}

/// What is asked of the members of a set, at a place on the stack.
pub fn form_of(set: &Members, place: &NodePlace) -> OfForm
    ensures { result ≡ form_of (set_of set.now) (where_of place.now) }
{
    match set {
        Members::Rules(_) => OfForm::Rules,
        Members::Strings(_) => match place {
            NodePlace::Anywhere => OfForm::Match,
            NodePlace::At(_) => OfForm::MatchAt,
            NodePlace::Within(_) => OfForm::MatchIn,
        },
    }
}
