use std::alloc::{AllocError, Global};
use std::fmt::Write;
use std::test::Fail;
use yr_draft::ImageDraft;
use yr_emission::emit_rule;
use yr_rules::{
    Infix, Members, Node, NodeLink, NodeOver, NodePlace, NodeQuant, NodeRange, Pattern, PrefixOp,
    Reader, StringRef,
};

// The rows of a condition as they are read, its list rows and the bytes of its texts.
fn told(alloc: Global, condition: &Node) -> Result<String, Fail> {
    let mut draft = ImageDraft::new(alloc);
    emit_rule(alloc, &mut draft, &[], condition)?;
    let tables = draft.finish();
    let mut out = String::new(alloc);
    for row in &tables.code {
        match row.read() {
            Some(instruction) => write!(out, "{instruction:?}, ")?,
            None => out.push_str("no instruction, ")?,
        }
    }
    write!(out, "{:?} {:?}", tables.lists, tables.pool)?;
    Ok(out)
}

fn prefix(alloc: Global, op: PrefixOp, inner: Node) -> Result<Node, AllocError> {
    Ok(Node::Prefix {
        op,
        inner: Box::new(alloc, inner)?,
    })
}

fn chain(alloc: Global, first: Node, op: Infix, operand: Node) -> Result<Node, AllocError> {
    let mut rest = Vec::new(alloc);
    rest.push(NodeLink { op, operand })?;
    Ok(Node::Chain {
        first: Box::new(alloc, first)?,
        rest,
    })
}

fn byte_behind(alloc: Global) -> Result<Node, AllocError> {
    Ok(Node::Read {
        reader: Reader::Uint8,
        at: Box::new(alloc, Node::FileSize)?,
    })
}

fn numbers(alloc: Global, numbers: &[u32]) -> Result<Vec<u32>, AllocError> {
    let mut list = Vec::new(alloc);
    list.extend_from_slice(numbers)?;
    Ok(list)
}

fn of(alloc: Global, quant: NodeQuant, strings: &[u32]) -> Result<Node, AllocError> {
    Ok(Node::Of {
        quant,
        set: Members::Strings(numbers(alloc, strings)?),
        place: NodePlace::Anywhere,
    })
}

// `not (uint8(filesize) == 0)`
fn no_zero(alloc: Global) -> Result<Node, AllocError> {
    let equal = chain(alloc, byte_behind(alloc)?, Infix::Equal, Node::Number(0))?;
    prefix(alloc, PrefixOp::Not, equal)
}

// `not defined uint8(filesize)`
fn no_byte(alloc: Global) -> Result<Node, AllocError> {
    let defined = prefix(alloc, PrefixOp::Defined, byte_behind(alloc)?)?;
    prefix(alloc, PrefixOp::Not, defined)
}

// `9223372036854775807 + 1 < 0`
fn wraps(alloc: Global) -> Result<Node, AllocError> {
    let sum = chain(
        alloc,
        Node::Number(9_223_372_036_854_775_807),
        Infix::Add,
        Node::Number(1),
    )?;
    chain(alloc, sum, Infix::Less, Node::Number(0))
}

// `for all i in (1..#a) : ( @a[i] % 2 == 0 )`
fn all_even(alloc: Global) -> Result<Node, AllocError> {
    let string = StringRef::Known(0);
    let offset = Node::Offset {
        string,
        index: Some(Box::new(alloc, Node::Var(0))?),
    };
    let rest = chain(alloc, offset, Infix::Remainder, Node::Number(2))?;
    let body = chain(alloc, rest, Infix::Equal, Node::Number(0))?;
    let range = NodeRange {
        low: Box::new(alloc, Node::Number(1))?,
        high: Box::new(
            alloc,
            Node::Count {
                string,
                range: None,
            },
        )?,
    };
    Ok(Node::ForIn {
        quant: NodeQuant::All,
        name: Vec::new(alloc),
        over: NodeOver::Range(range),
        body: Box::new(alloc, body)?,
    })
}

// `50% of them and not 0 of them and none of ($b) and -1 of them`
fn some_of(alloc: Global) -> Result<Node, AllocError> {
    let half = of(
        alloc,
        NodeQuant::Percent(Box::new(alloc, Node::Number(50))?),
        &[0, 1],
    )?;
    let nothing = of(
        alloc,
        NodeQuant::Number(Box::new(alloc, Node::Number(0))?),
        &[0, 1],
    )?;
    let below = prefix(alloc, PrefixOp::Minus, Node::Number(1))?;
    let mut rest = Vec::new(alloc);
    for operand in [
        prefix(alloc, PrefixOp::Not, nothing)?,
        of(alloc, NodeQuant::Nil, &[1])?,
        of(alloc, NodeQuant::Number(Box::new(alloc, below)?), &[0, 1])?,
    ] {
        rest.push(NodeLink {
            op: Infix::And,
            operand,
        })?;
    }
    Ok(Node::Chain {
        first: Box::new(alloc, half)?,
        rest,
    })
}

// `any of (p*)`, one rule being meant
fn any_rule(alloc: Global) -> Result<Node, AllocError> {
    Ok(Node::Of {
        quant: NodeQuant::Any,
        set: Members::Rules(numbers(alloc, &[3])?),
        place: NodePlace::Anywhere,
    })
}

// `for any of ($a, $b) : ( $ or "a" matches // )`
fn looped(alloc: Global) -> Result<Node, AllocError> {
    let mut text = Vec::new(alloc);
    text.push(97)?;
    let matches = Node::Matches {
        text: Box::new(alloc, Node::Text(text))?,
        pattern: Pattern::Empty,
    };
    let found = Node::Found {
        string: StringRef::Current(0),
        place: NodePlace::Anywhere,
    };
    let body = chain(alloc, found, Infix::Or, matches)?;
    Ok(Node::ForOf {
        quant: NodeQuant::Any,
        set: Members::Strings(numbers(alloc, &[0, 1])?),
        body: Box::new(alloc, body)?,
    })
}

#[test]
fn conditions_are_these_rows(rt: HostRuntime) -> Result<(), Fail> {
    let alloc = rt.alloc();
    let rows: [(&str, Node, &str); 7] = [
        (
            "not of what is undefined",
            no_zero(alloc)?,
            "FileSize, Read(Uint8), Number(0), Compare { comparison: Equal, kind: Number }, Not, End, [] []",
        ),
        (
            "a run of prefixes",
            no_byte(alloc)?,
            "FileSize, Read(Uint8), Defined, Not, End, [] []",
        ),
        (
            "a sum that wraps",
            wraps(alloc)?,
            "Number(9223372036854775807), Number(1), Arith(Add), Number(0), Compare { comparison: Less, kind: Number }, End, [] []",
        ),
        (
            "a loop",
            all_even(alloc)?,
            "Number(1), Count(Known(0)), LoopRange { quantifier: All, end: 11 }, Var(0), Offset(Known(0)), Number(2), Arith(Remainder), Number(0), Compare { comparison: Equal, kind: Number }, Truth, LoopEnd(2), End, [] []",
        ),
        (
            "quantifiers and skips",
            some_of(alloc)?,
            "Number(50), Of { form: Match, quantifier: Percent, first: 0, rows: 2 }, Truth, SkipFalse(9), Number(0), Of { form: Match, quantifier: Number, first: 2, rows: 2 }, Not, Truth, Settle, Truth, SkipFalse(14), Of { form: Match, quantifier: Nil, first: 4, rows: 1 }, Truth, Settle, Truth, SkipFalse(21), Number(1), Negate, Of { form: Match, quantifier: Number, first: 5, rows: 2 }, Truth, Settle, End, [0, 1, 0, 1, 1, 0, 1] []",
        ),
        (
            "a set of rules",
            any_rule(alloc)?,
            "Of { form: Rules, quantifier: Any, first: 0, rows: 1 }, End, [3] []",
        ),
        (
            "a loop over strings",
            looped(alloc)?,
            "LoopStrings { quantifier: Any, end: 10, first: 0, rows: 2 }, Has(Current(0)), Truth, SkipTrue(8), Text { place: 0, length: 1 }, Matches(0), Truth, Settle, Truth, LoopEnd(0), End, [0, 1] [97]",
        ),
    ];
    for (name, condition, want) in &rows {
        assert_eq!(rt; told(alloc, condition)?.as_str(), *want, "{name}");
    }
    Ok(())
}
