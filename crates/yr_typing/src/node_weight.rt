//! The weights of checked conditions, as far as 64 bits tell.

ghost use Rattle.std.specs.Prelude.{◌≡◌, ◌+◌, ◌*◌, ◌-◌, ◌^◌, [], map, min};
ghost use Rattle.std.specs.Option.{option_map};
ghost use Rattle.yr_rules.specs.Weight as spec;
ghost use Rattle.yr_pattern.specs.Sizes.{size_of};
ghost use Rattle.yr_pattern.specs.Tree.{tree_of as tree_of_pattern};
ghost use Rattle.yr_rules.specs.NodeTree.{tree_of, asked_of, where_of, domain_of, bounds_of, links_of, link_of, items_of, boxed, set_of};
ghost use Rattle.yr_typing.specs.Open.{loop_of, open_of};
ghost use Rattle.yr_typing.specs.Parts.{range_weight as weight_of_range, index_weight as weight_of_index};

use crate::loops::{Loop, Loops, open_loop};
use crate::node_kind::loop_over;
use yr_pattern::size;
use yr_rules::{Members, Node, NodeLink, NodeOver, NodePlace, NodeQuant, NodeRange, Pattern};

fn variable_weight(turns: Option<Loop>) -> u64
    ensures { result ≡ spec.variable_weight (option_map loop_of turns) }
{
    match turns {
        Some(Loop::Entries) => 0,
        _ => 16,
    }
}

fn set_weight(set: &Members) -> u64
    ensures { result ≡ min (spec.set_weight (set_of set.now)) (2 ^ 64 - 1) }
{
    match set {
        Members::Strings(numbers) => (numbers.len() as u64).saturating_mul(16),
        Members::Rules(numbers) => (numbers.len() as u64).saturating_mul(16),
    }
}

/// A pattern that stands by itself.
pub fn pattern_weight(pattern: &Pattern) -> u64
    ensures { result ≡ min (spec.pattern_weight (size_of (tree_of_pattern pattern.now))) (2 ^ 64 - 1) }
{
    size(pattern).saturating_mul(32).saturating_add(64)
}

/// The weight of a condition where these loops are open.
#[cycle(weights)]
fn node_weight(node: &Node, loops: &Loops<'_>) -> u64
    ensures { result ≡ min (spec.node_weight (tree_of node.now) (open_of loops.now)) (2 ^ 64 - 1) }
{
    match node {
        Node::Text(text) => (text.len() as u64).saturating_add(16),
        Node::Var(number) => variable_weight(open_loop(loops, *number)),
        Node::Field { index, .. } | Node::Offset { index, .. } | Node::Length { index, .. } => {
            index_weight(index, loops)
        }
        Node::Call { from, size, .. } => node_weight(from, loops)
            .saturating_add(node_weight(size, loops))
            .saturating_add(16),
        Node::Found { place, .. } => place_weight(place, loops).saturating_add(16),
        Node::Count { range, .. } => range_weight(range, loops),
        Node::Read { at, .. } => node_weight(at, loops).saturating_add(16),
        Node::Prefix { inner, .. } => prefixes_weight(inner, loops),
        Node::Chain { first, rest } => node_weight(first, loops)
            .saturating_add(links_weight(rest, loops))
            .saturating_add(16),
        Node::Matches { text, pattern } => node_weight(text, loops)
            .saturating_add(pattern_weight(pattern))
            .saturating_add(16),
        Node::Of { quant, set, place } => asked_weight(quant, loops)
            .saturating_add(set_weight(set))
            .saturating_add(place_weight(place, loops))
            .saturating_add(16),
        Node::ForOf { quant, set, body } => asked_weight(quant, loops)
            .saturating_add(set_weight(set))
            .saturating_add(node_weight(body, &Loops::Inside(Loop::Members, &*loops)))
            .saturating_add(16),
        Node::ForIn {
            quant,
            over,
            body,
            ..
        } => asked_weight(quant, loops)
            .saturating_add(domain_weight(over, loops))
            .saturating_add(node_weight(body, &Loops::Inside(loop_over(over), &*loops)))
            .saturating_add(16),
        _ => 16,
    }
}

/// The weight of a prefix operator and what stands behind it, of which further operators are taken in a loop.
#[cycle(weights)]
fn prefixes_weight(inner: &Node, loops: &Loops<'_>) -> u64
    ensures { result ≡ min (16 + spec.node_weight (tree_of inner.now) (open_of loops.now)) (2 ^ 64 - 1) }
{
    let mut run: u64 = 16;
    let mut operand = inner;
    while let Node::Prefix { inner, .. } = operand {
        run = run.saturating_add(16);
        operand = inner;
    }
    run.saturating_add(node_weight(operand, loops))
}

#[cycle(weights)]
fn index_weight(index: &Option<Box<Node>>, loops: &Loops<'_>) -> u64
    ensures { result ≡ min (weight_of_index (option_map tree_of (boxed index.now)) (open_of loops.now)) (2 ^ 64 - 1) }
{
    match index {
        None => 16,
        Some(index) => node_weight(index, loops).saturating_add(16),
    }
}

#[cycle(weights)]
fn range_weight(range: &Option<NodeRange>, loops: &Loops<'_>) -> u64
    ensures { result ≡ min (weight_of_range (option_map bounds_of range.now) (open_of loops.now)) (2 ^ 64 - 1) }
{
    match range {
        None => 16,
        Some(range) => node_weight(&range.low, loops)
            .saturating_add(node_weight(&range.high, loops))
            .saturating_add(16),
    }
}

#[cycle(weights)]
fn links_weight(links: &[NodeLink], loops: &Loops<'_>) -> u64
    ensures { result ≡ min (spec.links_weight (links_of (map link_of links.now)) (open_of loops.now)) (2 ^ 64 - 1) }
{
    let mut total: u64 = 0;
    for i in (0..links.len()).rev() {
        total = total.saturating_add(node_weight(&links[i].operand, loops));
    }
    total
}

#[cycle(weights)]
fn place_weight(place: &NodePlace, loops: &Loops<'_>) -> u64
    ensures { result ≡ min (spec.where_weight (where_of place.now) (open_of loops.now)) (2 ^ 64 - 1) }
{
    match place {
        NodePlace::Anywhere => 0,
        NodePlace::At(at) => node_weight(at, loops),
        NodePlace::Within(range) => {
            node_weight(&range.low, loops).saturating_add(node_weight(&range.high, loops))
        }
    }
}

#[cycle(weights)]
fn asked_weight(quant: &NodeQuant, loops: &Loops<'_>) -> u64
    ensures { result ≡ min (spec.asked_weight (asked_of quant.now) (open_of loops.now)) (2 ^ 64 - 1) }
{
    match quant {
        NodeQuant::All | NodeQuant::Any | NodeQuant::Nil => 0,
        NodeQuant::Number(count) | NodeQuant::Percent(count) => node_weight(count, loops),
    }
}

#[cycle(weights)]
fn domain_weight(over: &NodeOver, loops: &Loops<'_>) -> u64
    ensures { result ≡ min (spec.domain_weight (domain_of over.now) (open_of loops.now)) (2 ^ 64 - 1) }
{
    match over {
        NodeOver::Range(range) => {
            node_weight(&range.low, loops).saturating_add(node_weight(&range.high, loops))
        }
        NodeOver::List(items) => items_weight(items, loops),
        NodeOver::Entries(_) => 0,
    }
}

#[cycle(weights)]
fn items_weight(items: &[Node], loops: &Loops<'_>) -> u64
    ensures { result ≡ min (spec.items_weight (items_of (map tree_of items.now)) (open_of loops.now)) (2 ^ 64 - 1) }
{
    let mut total: u64 = 0;
    for i in (0..items.len()).rev() {
        total = total.saturating_add(node_weight(&items[i], loops));
    }
    total
}

/// The weight of a whole condition.
pub fn condition_weight(node: &Node) -> u64
    ensures { result ≡ min (spec.node_weight (tree_of node.now) []) (2 ^ 64 - 1) }
{
    node_weight(node, &Loops::None)
}
