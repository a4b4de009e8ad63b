//! The values that paths lead to.

ghost use Rattle.std.specs.Prelude.{◌≡◌, ◌<◌, ◌≤◌, ◌^◌, IfOk, length, map, true};
ghost use Rattle.std.specs.Option.{option_map};
ghost use Rattle.yr_rules.specs.NodeTree as node;
ghost use Rattle.yr_rules.specs.NodeTree.{tree_of};
ghost use Rattle.yr_rules.specs.Rules.{external_of};
ghost use Rattle.yr_conditions.specs.UseViews.{index_of, shown};
ghost use Rattle.yr_conditions.specs.Nodes as spec;
ghost use Rattle.yr_conditions.specs.Shapes.{kept_external, value_shape};
ghost use Rattle.yr_conditions.specs.NodeViews.{IsLow, IsLowIndex, written_of};

use crate::{Index, Meaning};
use std::alloc::Global;
use yr_base::{Kind, NoMemory};
use yr_rules::{External, Node};
use yr_typing::external_kind;

/// An external, or where numbers are not wanted a value of its kind.
fn external(alloc: Global, exact: bool, externals: &[External], number: usize) -> Node
    requires within { number < length externals.now }
    requires few { exact ≡ true → length externals.now ≤ 2 ^ 32 }
    ensures { tree_of result ≡ kept_external exact (map external_of externals.now) number }
{
    if exact {
        return Node::External(number as u32);
    }
    match external_kind(externals, number) {
        Some(Kind::Number) => Node::Number(0),
        Some(Kind::Flag) => Node::Flag(false),
        Some(Kind::Text) => Node::Text(Vec::new(alloc)),
        None => unreachable!(),
    }
}

/// A field of an entry.
fn field_at(alloc: Global, id: u16, kind: Kind, index: Node) -> Result<Node, NoMemory>
    ensures { IfOk result (λ n. tree_of n ≡ node.FieldAt id kind (tree_of index)) }
{
    let index = Box::new(alloc, index)?;
    Ok(Node::Field {
        id,
        kind,
        index: Some(index),
    })
}

/// A field of an entry takes the index that is written last.
fn written_field(
    alloc: Global,
    id: u16,
    kind: Kind,
    mut written: Vec<Option<Node>>,
) -> Result<Option<Node>, NoMemory>
    ensures { IfOk result (λ n. option_map tree_of n ≡ spec.written_field id kind (written_of written.items)) }
{
    if written.is_empty() {
        return Ok(None);
    }
    let Some(index) = written.remove(0) else {
        return Ok(None);
    };
    Ok(Some(field_at(alloc, id, kind, index)?))
}

fn field(
    alloc: Global,
    id: u16,
    kind: Kind,
    index: Index,
    written: Vec<Option<Node>>,
) -> Result<Option<Node>, NoMemory>
    requires { IsLowIndex (2 ^ 32) (index_of index) }
    ensures { IfOk result (λ n. option_map tree_of n ≡ spec.field_node id kind (index_of index) (written_of written.items)) }
{
    match index {
        Index::None => Ok(Some(Node::Field {
            id,
            kind,
            index: None,
        })),
        Index::OfLoop(number) => {
            let index = Node::Var(number as u32);
            Ok(Some(field_at(alloc, id, kind, index)?))
        }
        Index::Written => written_field(alloc, id, kind, written),
    }
}

/// A call takes its two arguments.
fn call(
    alloc: Global,
    id: u16,
    kind: Kind,
    mut written: Vec<Option<Node>>,
) -> Result<Option<Node>, NoMemory>
    ensures { IfOk result (λ n. option_map tree_of n ≡ spec.call_node id kind (written_of written.items)) }
{
    if written.len() != 2 {
        return Ok(None);
    }
    let size = written.remove(1);
    let from = written.remove(0);
    let Some(from) = from else {
        return Ok(None);
    };
    let Some(size) = size else {
        return Ok(None);
    };
    Ok(Some(Node::Call {
        id,
        kind,
        from: Box::new(alloc, from)?,
        size: Box::new(alloc, size)?,
    }))
}

/// The value that a path leads to, with the index or the arguments that are written last.
pub fn value(
    alloc: Global,
    exact: bool,
    externals: &[External],
    meaning: Meaning<'_>,
    written: Vec<Option<Node>>,
) -> Result<Option<Node>, NoMemory>
    requires low { IsLow (2 ^ 32) (length externals.now) (shown meaning) }
    requires few { exact ≡ true → length externals.now ≤ 2 ^ 32 }
    ensures { IfOk result (λ n. option_map tree_of n ≡ value_shape exact (map external_of externals.now) (shown meaning.entry) (written_of written.items)) }
{
    match meaning {
        Meaning::Constant(number) => Ok(Some(Node::Number(number))),
        Meaning::Field { id, kind, index } => field(alloc, id, kind, index, written),
        Meaning::Result { id, kind } => call(alloc, id, kind, written),
        Meaning::Variable(number) => Ok(Some(Node::Var(number as u32))),
        Meaning::External(number) => Ok(Some(external(alloc, exact, externals, number))),
        Meaning::RuleTruth(number) => Ok(Some(Node::RuleTruth(number))),
        _ => Ok(None),
    }
}
