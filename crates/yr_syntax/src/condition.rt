//! Conditions.

use crate::operator::{Infix, PrefixOp, Reader};
use crate::string::RegexText;

/// A condition. Names have no sign, and are empty where the sign stands alone.
#[cycle(condition)]
pub enum Cond {
    Number(i64),
    Text(Vec<u8>),
    Flag(bool),
    FileSize,
    /// A name, with what follows it.
    Path(Vec<PathStep>),
    /// `$name`.
    Found {
        name: Vec<u8>,
        place: Place,
    },
    /// `#name`.
    Count {
        name: Vec<u8>,
        range: Option<Range>,
    },
    /// `@name`.
    Offset {
        name: Vec<u8>,
        index: Option<Box<Cond>>,
    },
    /// `!name`.
    Length {
        name: Vec<u8>,
        index: Option<Box<Cond>>,
    },
    Read {
        reader: Reader,
        at: Box<Cond>,
    },
    Prefix {
        op: PrefixOp,
        inner: Box<Cond>,
    },
    /// Two or more operands of one level, from the left.
    Chain {
        first: Box<Cond>,
        rest: Vec<Link>,
    },
    Matches {
        text: Box<Cond>,
        regex: RegexText,
    },
    Of {
        quant: Quant,
        set: SetRef,
        place: Place,
    },
    ForOf {
        quant: Quant,
        set: SetRef,
        body: Box<Cond>,
    },
    ForIn {
        quant: Quant,
        name: Vec<u8>,
        over: Over,
        body: Box<Cond>,
    },
}

/// A run of prefixes is taken apart by the loop, so that what recurses is bounded by the height.
impl Drop for Cond {
    #[cycle(condition)]
    fn drop(mut self) {
        loop {
            match self {
                Cond::Prefix { op: _, inner } => self = Box::into_inner(inner),
                Cond::Number(_) | Cond::Flag(_) | Cond::FileSize => return,
                Cond::Text(_) => return,
                Cond::Path(_) => return,
                Cond::Found { name: _, place: _ } => return,
                Cond::Count { name: _, range: _ } => return,
                Cond::Offset { name: _, index: _ } => return,
                Cond::Length { name: _, index: _ } => return,
                Cond::Read { reader: _, at: _ } => return,
                Cond::Chain { first: _, rest: _ } => return,
                Cond::Matches { text: _, regex: _ } => return,
                Cond::Of {
                    quant: _,
                    set: _,
                    place: _,
                } => return,
                Cond::ForOf {
                    quant: _,
                    set: _,
                    body: _,
                } => return,
                Cond::ForIn {
                    quant: _,
                    name: _,
                    over: _,
                    body: _,
                } => return,
            }
        }
    }
}

/// A part of a path.
#[cycle(condition)]
#[derive(Drop)]
pub enum PathStep {
    Name(Vec<u8>),
    Index(Cond),
    Call(Vec<Cond>),
}

/// An operator and its right operand.
#[cycle(condition)]
#[derive(Drop)]
pub struct Link {
    pub op: Infix,
    pub operand: Cond,
}

/// Where a string is looked for.
#[cycle(condition)]
#[derive(Drop)]
pub enum Place {
    Anywhere,
    At(Box<Cond>),
    Within(Range),
}

/// The numbers from `low` to `high`.
#[cycle(condition)]
#[derive(Drop)]
pub struct Range {
    pub low: Box<Cond>,
    pub high: Box<Cond>,
}

/// How many are asked for.
#[cycle(condition)]
#[derive(Drop)]
pub enum Quant {
    All,
    Any,
    /// `none`.
    Nil,
    Number(Box<Cond>),
    Percent(Box<Cond>),
}

/// What a loop goes over.
#[cycle(condition)]
#[derive(Drop)]
pub enum Over {
    Range(Range),
    List(Vec<Cond>),
    Path(Vec<PathStep>),
}

/// A set of strings or of rules.
#[derive(Drop)]
pub enum SetRef {
    Them,
    Strings(Vec<SetItem>),
    Rules(Vec<SetItem>),
}

/// A name, or with a `*` all names that begin with it.
#[derive(Drop)]
pub struct SetItem {
    pub name: Vec<u8>,
    pub wild: bool,
}
