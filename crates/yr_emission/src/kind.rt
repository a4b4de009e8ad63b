//! The kinds of values.

ghost use Rattle.std.specs.Prelude.{◌≡◌, map};
ghost use Rattle.yr_rules.specs.NodeTree.{tree_of};
ghost use Rattle.yr_rules.specs.Rules.{external_of, external_value};
ghost use Rattle.yr_rules.specs.Kinds.{external_kind};
ghost use Rattle.yr_values.specs.Values.{kind_of};
ghost use Rattle.yr_emission.specs.Parts.{known_kind, value_kind};

use crate::choosing::{infix_answer, prefix_answer};
use yr_base::Kind;
use yr_rules::{External, ExternalValue, Node};

// The kind of an external's value.
fn given_kind(value: &ExternalValue) -> Kind
    ensures { kind_of (external_value value.now) ≡ Some result }
{
    match value {
        ExternalValue::Number(_) => Kind::Number,
        ExternalValue::Flag(_) => Kind::Flag,
        ExternalValue::Text(_) => Kind::Text,
    }
}

// The kind of an external.
fn external_kind(externals: &[External], k: u32) -> Kind
    ensures { result ≡ known_kind (external_kind (map external_of externals.now) k) }
{
    match externals.get(k as usize) {
        Some(external) => given_kind(&external.value),
        None => Kind::Number,
    }
}

/// The kind of a checked condition's value, by its form alone.
pub fn value_kind(externals: &[External], node: &Node) -> Kind
    ensures { result ≡ value_kind (map external_of externals.now) (tree_of node.now) }
{
    match node {
        Node::Number(_)
        | Node::FileSize
        | Node::Var(_)
        | Node::Count { .. }
        | Node::Offset { .. }
        | Node::Length { .. }
        | Node::Read { .. } => Kind::Number,
        Node::Text(_) => Kind::Text,
        Node::Flag(_)
        | Node::RuleTruth(_)
        | Node::Found { .. }
        | Node::Matches { .. }
        | Node::Of { .. }
        | Node::ForOf { .. }
        | Node::ForIn { .. } => Kind::Flag,
        Node::External(k) => external_kind(externals, *k),
        Node::Field { kind, .. } | Node::Call { kind, .. } => *kind,
        Node::Prefix { op, .. } => prefix_answer(*op),
        Node::Chain { first, rest } => match rest.last() {
            None => value_kind(externals, first),
            Some(link) => infix_answer(link.op),
        },
    }
}
