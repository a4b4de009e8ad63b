use std::test::Fail;
use yr_base::{Kind, ShortText, Value};
use yr_values::*;

// A number, a flag as 1 or 0, and nothing for what is undefined.
fn number(v: &Value<'_>) -> Option<i64> {
    match v {
        Value::Number(n) => Some(*n),
        Value::Flag(true) => Some(1),
        Value::Flag(false) => Some(0),
        _ => None,
    }
}

fn n(n: i64) -> Value<'static> {
    Value::Number(n)
}

fn t(text: &[u8]) -> Value<'_> {
    Value::Text(text)
}

// Fields of a file of two bytes: 1 is its text, 2 its length.
struct TwoBytes<'a> {
    file: &'a [u8],
}

impl Modules for TwoBytes<'_> {
    ghost use Rattle.std.specs.Prelude.{pos, ◌==◌, if◌then◌else◌, None, Some};
    ghost use Rattle.yr_values.specs.Values.{Undefined, Number, Text};
    ghost use Rattle.yr_base.specs.declared.value.Kind.TheVariants as kind;

    ghost field_of = { λ m id index. if id == 1 then Text m.file.now else if id == 2 then Number (pos 2) else Undefined };

    ghost call_of = { λ m id from size. Undefined };

    ghost field_kind = { λ id. if id == 1 then Some kind.Text else if id == 2 then Some kind.Number else None };

    ghost call_kind = { λ id. None };

    fn field(&self, id: u16, _index: i64) -> Value<'_> {
        match id {
            1 => Value::Text(self.file),
            2 => Value::Number(2),
            _ => Value::Undefined,
        }
    }

    fn call(&self, _id: u16, _from: i64, _size: i64) -> Value<'_> {
        Value::Undefined
    }
}

fn second_field<M: Modules>(modules: &M) -> Option<i64> {
    number(&modules.field(2, 0))
}

#[test]
fn numbers(rt: HostRuntime) -> Result<(), Fail> {
    let (least, most) = (i64::MIN, i64::MAX);
    let undefined = Value::Undefined;
    let rows = [
        ("the sum wraps", sum(&n(most), &n(1)), Some(least)),
        (
            "and is below 0",
            less(&sum(&n(most), &n(1)), &n(0)),
            Some(1),
        ),
        ("1 \\ 0 == 0", equal(&quotient(&n(1), &n(0)), &n(0)), None),
        ("least \\ -1", quotient(&n(least), &n(-1)), Some(least)),
        ("least % -1", remainder(&n(least), &n(-1)), Some(0)),
        ("-7 \\ 2", quotient(&n(-7), &n(2)), Some(-3)),
        ("-7 % 2", remainder(&n(-7), &n(2)), Some(-1)),
        ("7 % -2", remainder(&n(7), &n(-2)), Some(1)),
        ("difference", difference(&n(least), &n(1)), Some(most)),
        ("product", product(&n(most), &n(2)), Some(-2)),
        ("negation", negation(&n(least)), Some(least)),
        ("~5", complement(&n(5)), Some(-6)),
        ("12 & 10", bit_and(&n(12), &n(10)), Some(8)),
        ("12 | 10", bit_or(&n(12), &n(10)), Some(14)),
        ("-1 ^ 10", bit_xor(&n(-1), &n(10)), Some(-11)),
        ("-1 >> 63", right_shift(&n(-1), &n(63)), Some(-1)),
        ("-1 >> 64", right_shift(&n(-1), &n(64)), Some(0)),
        ("-8 >> 1", right_shift(&n(-8), &n(1)), Some(-4)),
        ("1 << 63", left_shift(&n(1), &n(63)), Some(least)),
        ("1 << 64", left_shift(&n(1), &n(64)), Some(0)),
        ("1 << -1", left_shift(&n(1), &n(-1)), None),
        ("1 >> least", right_shift(&n(1), &n(least)), None),
        ("undefined + 1", sum(&undefined, &n(1)), None),
        ("a flag + 1", sum(&Value::Flag(true), &n(1)), None),
        ("1 >= 1", at_least(&n(1), &n(1)), Some(1)),
        ("2 <= 1", at_most(&n(2), &n(1)), Some(0)),
        ("2 > 1", greater(&n(2), &n(1)), Some(1)),
        ("2 != 2", unequal(&n(2), &n(2)), Some(0)),
        (
            "flags",
            equal(&Value::Flag(false), &Value::Flag(false)),
            Some(1),
        ),
        (
            "undefined == undefined",
            equal(&undefined, &undefined),
            None,
        ),
        ("not undefined", contrary(&undefined), None),
        ("defined undefined", definedness(&undefined), Some(0)),
    ];
    for (name, got, want) in &rows {
        assert_eq!(rt; number(got), *want, "{name}");
    }
    let quantifiers = [
        (Quantifier::All, 0, 0, true),
        (Quantifier::Any, 0, 0, false),
        (Quantifier::Nil, 0, 3, true),
        (Quantifier::Number(2), 1, 3, false),
        (Quantifier::Number(0), 1, 3, false),
        (Quantifier::Number(-1), 0, 3, true),
        (Quantifier::Percent(50), 1, 2, true),
        (Quantifier::Percent(34), 1, 3, false),
        (
            Quantifier::Percent(i64::MAX),
            4_294_967_296,
            4_294_967_296,
            false,
        ),
        (Quantifier::Percent(i64::MIN), 0, 4_294_967_296, true),
        (Quantifier::Percent(150), 0, 0, true),
    ];
    for (quantifier, found, total, want) in &quantifiers {
        assert_eq!(rt;
            quantifier.meets(*found, *total),
            *want,
            "{quantifier:?} {found} {total}"
        );
    }
    Ok(())
}

#[test]
fn texts_and_files(rt: HostRuntime) -> Result<(), Fail> {
    let file = [0x01, 0x80, 0xff, 0x7f];
    let mut bytes = [0; 64];
    bytes[0] = b'A';
    bytes[1] = b'b';
    let short = Value::Short(ShortText { bytes, len: 2 });
    let rows = [
        ("7f < 80", less(&t(b"\x7f"), &t(b"\x80")), Some(1)),
        ("a front is less", less(&t(b"ab"), &t(b"abc")), Some(1)),
        ("texts and numbers", equal(&t(b"1"), &n(1)), None),
        ("short and lent", equal(&short, &t(b"Ab")), Some(1)),
        ("contains", contains(&t(b"xxab"), &t(b"ab")), Some(1)),
        (
            "contains by case",
            contains(&t(b"xxAb"), &t(b"ab")),
            Some(0),
        ),
        ("contains nothing", contains(&t(b""), &t(b"")), Some(1)),
        ("icontains", icontains(&t(b"xaaAb"), &t(b"aAB")), Some(1)),
        (
            "icontains with a period",
            icontains(&t(b"abababAC"), &t(b"ababac")),
            Some(1),
        ),
        ("icontains longer", icontains(&short, &t(b"abc")), Some(0)),
        (
            "icontains above 7f",
            icontains(&t(b"\xc1"), &t(b"\xe1")),
            Some(0),
        ),
        ("icontains brackets", icontains(&t(b"["), &t(b"{")), Some(0)),
        ("startswith", startswith(&short, &t(b"A")), Some(1)),
        ("istartswith", istartswith(&short, &t(b"aB")), Some(1)),
        (
            "istartswith longer",
            istartswith(&short, &t(b"abc")),
            Some(0),
        ),
        ("endswith", endswith(&short, &t(b"a")), Some(0)),
        ("iendswith", iendswith(&t(b"xaB"), &short), Some(1)),
        ("iequals", iequals(&short, &t(b"aB")), Some(1)),
        ("of numbers", contains(&n(1), &t(b"")), None),
        ("uint8 at the end", uint8(&file, &n(3)), Some(0x7f)),
        ("uint8 past the end", uint8(&file, &n(4)), None),
        (
            "not (uint8 past the end == 0)",
            contrary(&equal(&uint8(&file, &n(4)), &n(0))),
            None,
        ),
        ("int8", int8(&file, &n(1)), Some(-128)),
        ("uint8be", uint8be(&file, &n(1)), Some(0x80)),
        ("int8be", int8be(&file, &n(2)), Some(-1)),
        ("uint16", uint16(&file, &n(0)), Some(0x8001)),
        ("uint16be", uint16be(&file, &n(0)), Some(0x0180)),
        ("int16", int16(&file, &n(0)), Some(-32767)),
        ("int16be", int16be(&file, &n(2)), Some(-129)),
        ("uint32", uint32(&file, &n(0)), Some(0x7fff_8001)),
        ("uint32be", uint32be(&file, &n(0)), Some(0x0180_ff7f)),
        ("int32", int32(&file, &n(0)), Some(0x7fff_8001)),
        ("int32be", int32be(&file, &n(1)), None),
        ("at -1", uint16(&file, &n(-1)), None),
        ("at the greatest number", uint32(&file, &n(i64::MAX)), None),
    ];
    for (name, got, want) in &rows {
        assert_eq!(rt; number(got), *want, "{name}");
    }
    assert!(rt; holds(&t(b"x")) && !holds(&t(b"")) && holds(&n(-1)) && !holds(&Value::Undefined));
    let names = ModuleNames {
        modules: Vec::new(rt.alloc()),
    };
    assert_eq!(rt; names.modules.len(), 0);
    let entry = ModuleEntry::Field {
        id: 2,
        kind: Kind::Number,
    };
    assert_eq!(rt;
        entry,
        ModuleEntry::Field {
            id: 2,
            kind: Kind::Number
        }
    );
    assert_eq!(rt; second_field(&TwoBytes { file: &[1, 2] }), Some(2));
    Ok(())
}
