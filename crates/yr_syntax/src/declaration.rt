//! Imports and rules.

use crate::condition::Cond;
use crate::string::StringDecl;

/// An import or a rule. File and line are those of its first token.
#[derive(Drop)]
pub enum Decl {
    Import {
        module: Vec<u8>,
        file: u32,
        line: u32,
    },
    Rule(Rule),
}

/// A rule.
#[derive(Drop)]
pub struct Rule {
    pub name: Vec<u8>,
    pub global: bool,
    /// `private`.
    pub hidden: bool,
    pub tags: Vec<Vec<u8>>,
    pub meta: Vec<Meta>,
    pub strings: Vec<StringDecl>,
    pub condition: Cond,
    pub file: u32,
    pub line: u32,
}

/// An entry of a rule's `meta` part.
#[derive(Drop)]
pub struct Meta {
    pub key: Vec<u8>,
    pub value: MetaValue,
}

/// The value of an entry.
#[derive(Drop)]
pub enum MetaValue {
    Text(Vec<u8>),
    Number(i64),
    Flag(bool),
}
