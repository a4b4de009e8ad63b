//! Conditions that nest.

use std::alloc::{AllocError, Global};
use yr_rules::{
    Infix, Kind, Members, Node, NodeLink, NodeOver, NodePlace, NodeQuant, NodeRange, PrefixOp,
    Reader, StringRef,
};

/// What stands round a condition.
#[derive(Clone, Copy)]
pub enum Form {
    Prefix,
    First,
    Second,
    Skipped,
    Read,
    Index,
    Call,
    Range,
    Place,
    OverRange,
    OverList,
    OverStrings,
    Quantifier,
    Text,
}

fn before(alloc: Global, inner: Node) -> Result<Node, AllocError> {
    Ok(Node::Prefix {
        op: PrefixOp::Not,
        inner: Box::new(alloc, inner)?,
    })
}

/// So many operators before a condition.
pub fn prefixed(alloc: Global, count: u32, inner: Node) -> Result<Node, AllocError> {
    let mut node = inner;
    for _ in 0..count {
        node = before(alloc, node)?;
    }
    Ok(node)
}

fn chain(alloc: Global, first: Node, op: Infix, operand: Node) -> Result<Node, AllocError> {
    let mut rest = Vec::new(alloc);
    rest.push(NodeLink { op, operand })?;
    Ok(Node::Chain {
        first: Box::new(alloc, first)?,
        rest,
    })
}

fn range(alloc: Global, inner: Node) -> Result<NodeRange, AllocError> {
    Ok(NodeRange {
        low: Box::new(alloc, Node::Number(1))?,
        high: Box::new(alloc, inner)?,
    })
}

fn members(alloc: Global) -> Result<Members, AllocError> {
    let mut list = Vec::new(alloc);
    list.push(0)?;
    Ok(Members::Strings(list))
}

fn over(alloc: Global, over: NodeOver) -> Result<Node, AllocError> {
    Ok(Node::ForIn {
        quant: NodeQuant::All,
        name: Vec::new(alloc),
        over,
        body: Box::new(alloc, Node::Flag(true))?,
    })
}

fn inside(alloc: Global, body: Node) -> Result<Node, AllocError> {
    Ok(Node::ForOf {
        quant: NodeQuant::All,
        set: members(alloc)?,
        body: Box::new(alloc, body)?,
    })
}

fn asked(alloc: Global, inner: Node) -> Result<Node, AllocError> {
    Ok(Node::Of {
        quant: NodeQuant::Number(Box::new(alloc, inner)?),
        set: members(alloc)?,
        place: NodePlace::Anywhere,
    })
}

fn compared(alloc: Global, inner: Node) -> Result<Node, AllocError> {
    let mut text = Vec::new(alloc);
    text.push(97)?;
    chain(alloc, Node::Text(text), Infix::Contains, inner)
}

/// A condition in another one of this form.
pub fn wrapped(alloc: Global, form: Form, inner: Node) -> Result<Node, AllocError> {
    let string = StringRef::Known(0);
    match form {
        Form::Prefix => {
            let inner = prefixed(alloc, 8, inner)?;
            chain(alloc, inner, Infix::Or, Node::Flag(true))
        }
        Form::First => chain(alloc, inner, Infix::Add, Node::Number(1)),
        Form::Second => chain(alloc, Node::Number(1), Infix::Add, inner),
        Form::Skipped => chain(alloc, Node::Flag(true), Infix::And, inner),
        Form::Read => Ok(Node::Read {
            reader: Reader::Uint8,
            at: Box::new(alloc, inner)?,
        }),
        Form::Index => Ok(Node::Offset {
            string,
            index: Some(Box::new(alloc, inner)?),
        }),
        Form::Call => Ok(Node::Call {
            id: 0,
            kind: Kind::Number,
            from: Box::new(alloc, Node::Number(1))?,
            size: Box::new(alloc, inner)?,
        }),
        Form::Range => Ok(Node::Count {
            string,
            range: Some(range(alloc, inner)?),
        }),
        Form::Place => Ok(Node::Found {
            string,
            place: NodePlace::Within(range(alloc, inner)?),
        }),
        Form::OverRange => over(alloc, NodeOver::Range(range(alloc, inner)?)),
        Form::OverList => {
            let mut items = Vec::new(alloc);
            items.push(inner)?;
            over(alloc, NodeOver::List(items))
        }
        Form::OverStrings => inside(alloc, inner),
        Form::Quantifier => asked(alloc, inner),
        Form::Text => compared(alloc, inner),
    }
}
