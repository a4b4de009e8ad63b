//! The rows that say instructions.

ghost use Rattle.std.specs.Prelude.{◌≡◌};
ghost use Rattle.yr_image.specs.InstructionRows.{arithmetic_case, comparison_case, kind_case, test_case, reader_case, quantifier_case, form_case, flag_case, row, string_row, halves, row_of};
ghost use Rattle.yr_image.specs.Sayable.{NumberFits};

use crate::{
    Arithmetic, CodeRow, Comparison, Instruction, NamedString, OfForm, QuantifierKind, Reader,
    TextTest,
};
use yr_base::Kind;

// The number of an operator of two numbers.
fn arithmetic_case(op: Arithmetic) -> u8
    ensures { result ≡ arithmetic_case op }
{
    match op {
        Arithmetic::Multiply => 0,
        Arithmetic::Divide => 1,
        Arithmetic::Remainder => 2,
        Arithmetic::Add => 3,
        Arithmetic::Subtract => 4,
        Arithmetic::ShiftLeft => 5,
        Arithmetic::ShiftRight => 6,
        Arithmetic::BitAnd => 7,
        Arithmetic::BitXor => 8,
        Arithmetic::BitOr => 9,
    }
}

// The number of a comparison.
fn comparison_case(comparison: Comparison) -> u8
    ensures { result ≡ comparison_case comparison }
{
    match comparison {
        Comparison::Less => 0,
        Comparison::LessOrEqual => 1,
        Comparison::Greater => 2,
        Comparison::GreaterOrEqual => 3,
        Comparison::Equal => 4,
        Comparison::NotEqual => 5,
    }
}

// The number of the kind of compared values.
fn kind_case(kind: Kind) -> u16
    ensures { result ≡ kind_case kind }
{
    match kind {
        Kind::Number => 0,
        Kind::Text => 1,
        Kind::Flag => 2,
    }
}

// The number of a test of texts.
fn test_case(test: TextTest) -> u8
    ensures { result ≡ test_case test }
{
    match test {
        TextTest::Contains => 0,
        TextTest::IContains => 1,
        TextTest::StartsWith => 2,
        TextTest::IStartsWith => 3,
        TextTest::EndsWith => 4,
        TextTest::IEndsWith => 5,
        TextTest::IEquals => 6,
    }
}

// The number of a reader.
fn reader_case(reader: Reader) -> u8
    ensures { result ≡ reader_case reader }
{
    match reader {
        Reader::Int8 => 0,
        Reader::Int16 => 1,
        Reader::Int32 => 2,
        Reader::Uint8 => 3,
        Reader::Uint16 => 4,
        Reader::Uint32 => 5,
        Reader::Int8Be => 6,
        Reader::Int16Be => 7,
        Reader::Int32Be => 8,
        Reader::Uint8Be => 9,
        Reader::Uint16Be => 10,
        Reader::Uint32Be => 11,
    }
}

// The number of a quantifier.
fn quantifier_case(quantifier: QuantifierKind) -> u16
    ensures { result ≡ quantifier_case quantifier }
{
    match quantifier {
        QuantifierKind::All => 0,
        QuantifierKind::Any => 1,
        QuantifierKind::Nil => 2,
        QuantifierKind::Number => 3,
        QuantifierKind::Percent => 4,
    }
}

// The number of what is asked of a set.
fn form_case(form: OfForm) -> u8
    ensures { result ≡ form_case form }
{
    match form {
        OfForm::Match => 0,
        OfForm::MatchAt => 1,
        OfForm::MatchIn => 2,
        OfForm::Rules => 3,
    }
}

// A row with these fields.
fn row(op: u8, a: u8, b: u16, c: u32, d: u64) -> CodeRow
    ensures { result ≡ row op a b c d }
{
    CodeRow { op, a, b, c, d }
}

// A row that names a string.
fn string_row(op: u8, string: NamedString) -> CodeRow
    ensures { result ≡ string_row op string }
{
    match string {
        NamedString::Known(c) => row(op, 0, 0, c, 0),
        NamedString::Current(c) => row(op, 1, 0, c, 0),
    }
}

// Two numbers of four bytes in one of eight.
fn halves(low: u64, high: u64) -> u64
    ensures { result ≡ halves low high }
{
    low % 0x1_0000_0000 + high % 0x1_0000_0000 * 0x1_0000_0000
}

/// The row that says an instruction.
pub fn row_of(instruction: Instruction) -> CodeRow
    ensures row { result ≡ row_of instruction }
    ensures fits { NumberFits instruction }
{
    match instruction {
        Instruction::End => row(0x00, 0, 0, 0, 0),
        Instruction::Number(n) => row(0x01, 0, 0, 0, n.cast_unsigned()),
        Instruction::Text { place, length } => row(0x02, 0, 0, place, length),
        Instruction::Flag(b) => row(0x03, u8::from(b), 0, 0, 0),
        Instruction::FileSize => row(0x04, 0, 0, 0, 0),
        Instruction::External(k) => row(0x05, 0, 0, k, 0),
        Instruction::Rule(k) => row(0x06, 0, 0, k, 0),
        Instruction::Var(k) => row(0x07, 0, 0, k, 0),
        Instruction::Field { indexed, id } => row(0x08, u8::from(indexed), 0, id, 0),
        Instruction::Call(id) => row(0x09, 0, 0, id, 0),
        Instruction::Has(s) => string_row(0x0a, s),
        Instruction::HasAt(s) => string_row(0x0b, s),
        Instruction::HasIn(s) => string_row(0x0c, s),
        Instruction::Count(s) => string_row(0x0d, s),
        Instruction::CountIn(s) => string_row(0x0e, s),
        Instruction::Offset(s) => string_row(0x0f, s),
        Instruction::Length(s) => string_row(0x10, s),
        Instruction::Of {
            form,
            quantifier,
            first,
            rows,
        } => row(
            0x11,
            form_case(form),
            quantifier_case(quantifier),
            first,
            rows,
        ),
        Instruction::Read(r) => row(0x12, reader_case(r), 0, 0, 0),
        Instruction::Negate => row(0x13, 0, 0, 0, 0),
        Instruction::Flip => row(0x14, 0, 0, 0, 0),
        Instruction::Arith(op) => row(0x15, arithmetic_case(op), 0, 0, 0),
        Instruction::Compare { comparison, kind } => {
            row(0x16, comparison_case(comparison), kind_case(kind), 0, 0)
        }
        Instruction::Test(test) => row(0x17, test_case(test), 0, 0, 0),
        Instruction::Matches(program) => row(0x18, 0, 0, program, 0),
        Instruction::Not => row(0x19, 0, 0, 0, 0),
        Instruction::Defined => row(0x1a, 0, 0, 0, 0),
        Instruction::Truth => row(0x1b, 0, 0, 0, 0),
        Instruction::Settle => row(0x1c, 0, 0, 0, 0),
        Instruction::SkipFalse(end) => row(0x1d, 0, 0, end, 0),
        Instruction::SkipTrue(end) => row(0x1e, 0, 0, end, 0),
        Instruction::LoopRange { quantifier, end } => {
            row(0x1f, 0, quantifier_case(quantifier), end, 0)
        }
        Instruction::LoopList {
            quantifier,
            end,
            items,
        } => row(0x20, 0, quantifier_case(quantifier), end, items),
        Instruction::LoopStrings {
            quantifier,
            end,
            first,
            rows,
        } => row(
            0x21,
            0,
            quantifier_case(quantifier),
            end,
            halves(first, rows),
        ),
        Instruction::LoopEnd(place) => row(0x22, 0, 0, place, 0),
    }
}
