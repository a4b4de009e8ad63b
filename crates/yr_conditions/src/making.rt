//! Checked conditions made of their parts, where these are all there.

ghost use Rattle.std.specs.Prelude.{◌≡◌, IfOk, map};
ghost use Rattle.std.specs.Option.{option_map};
ghost use Rattle.yr_pattern.specs.Tree.{tree_of as pattern_of};
ghost use Rattle.yr_rules.specs.NodeTree as node;
ghost use Rattle.yr_rules.specs.NodeTree.{tree_of, asked_of, where_of, domain_of, bounds_of, links_of, link_of, items_of, set_of, boxed};
ghost use Rattle.yr_conditions.specs.Nodes.{of_two, of_three};
ghost use Rattle.yr_conditions.specs.NodeViews.{bounds};

use std::alloc::Global;
use yr_base::NoMemory;
use yr_rules::{
    Members, Node, NodeLink, NodeOver, NodePlace, NodeQuant, NodeRange, Pattern, Reader, StringRef,
};

pub fn range_of(low: Option<Box<Node>>, high: Option<Box<Node>>) -> Option<NodeRange>
    ensures { option_map bounds_of result ≡ of_two bounds (option_map tree_of (boxed low)) (option_map tree_of (boxed high)) }
{
    match (low, high) {
        (Some(low), Some(high)) => Some(NodeRange { low, high }),
        _ => None,
    }
}

pub fn found(string: Option<StringRef>, place: Option<NodePlace>) -> Option<Node>
    ensures { option_map tree_of result ≡ of_two node.Found string (option_map where_of place) }
{
    match (string, place) {
        (Some(string), Some(place)) => Some(Node::Found { string, place }),
        _ => None,
    }
}

pub fn count(string: Option<StringRef>) -> Option<Node>
    ensures { option_map tree_of result ≡ option_map node.Count string }
{
    match string {
        Some(string) => Some(Node::Count {
            string,
            range: None,
        }),
        None => None,
    }
}

pub fn count_in(string: Option<StringRef>, range: Option<NodeRange>) -> Option<Node>
    ensures { option_map tree_of result ≡ of_two (λ s r. node.CountIn s r.low r.high) string (option_map bounds_of range) }
{
    match (string, range) {
        (Some(string), Some(range)) => Some(Node::Count {
            string,
            range: Some(range),
        }),
        _ => None,
    }
}

pub fn offset(string: Option<StringRef>) -> Option<Node>
    ensures { option_map tree_of result ≡ option_map node.Offset string }
{
    match string {
        Some(string) => Some(Node::Offset {
            string,
            index: None,
        }),
        None => None,
    }
}

pub fn offset_at(string: Option<StringRef>, index: Option<Box<Node>>) -> Option<Node>
    ensures { option_map tree_of result ≡ of_two node.OffsetAt string (option_map tree_of (boxed index)) }
{
    match (string, index) {
        (Some(string), Some(index)) => Some(Node::Offset {
            string,
            index: Some(index),
        }),
        _ => None,
    }
}

pub fn length(string: Option<StringRef>) -> Option<Node>
    ensures { option_map tree_of result ≡ option_map node.Length string }
{
    match string {
        Some(string) => Some(Node::Length {
            string,
            index: None,
        }),
        None => None,
    }
}

pub fn length_at(string: Option<StringRef>, index: Option<Box<Node>>) -> Option<Node>
    ensures { option_map tree_of result ≡ of_two node.LengthAt string (option_map tree_of (boxed index)) }
{
    match (string, index) {
        (Some(string), Some(index)) => Some(Node::Length {
            string,
            index: Some(index),
        }),
        _ => None,
    }
}

pub fn read(reader: Reader, at: Option<Box<Node>>) -> Option<Node>
    ensures { option_map tree_of result ≡ option_map (node.Read reader) (option_map tree_of (boxed at)) }
{
    match at {
        Some(at) => Some(Node::Read { reader, at }),
        None => None,
    }
}

pub fn chain(first: Option<Box<Node>>, rest: Option<Vec<NodeLink>>) -> Option<Node>
    ensures { option_map tree_of result ≡ of_two node.Chain (option_map tree_of (boxed first)) (option_map (λ ls. links_of (map link_of ls.items)) rest) }
{
    match (first, rest) {
        (Some(first), Some(rest)) => Some(Node::Chain { first, rest }),
        _ => None,
    }
}

pub fn matches(text: Option<Box<Node>>, pattern: Option<Pattern>) -> Option<Node>
    ensures { option_map tree_of result ≡ of_two node.Matches (option_map tree_of (boxed text)) (option_map pattern_of pattern) }
{
    match (text, pattern) {
        (Some(text), Some(pattern)) => Some(Node::Matches { text, pattern }),
        _ => None,
    }
}

pub fn of(quant: Option<NodeQuant>, set: Members, place: Option<NodePlace>) -> Option<Node>
    ensures { option_map tree_of result ≡ of_two (λ q p. node.Of q (set_of set) p) (option_map asked_of quant) (option_map where_of place) }
{
    match (quant, place) {
        (Some(quant), Some(place)) => Some(Node::Of { quant, set, place }),
        _ => None,
    }
}

pub fn for_of(quant: Option<NodeQuant>, set: Members, body: Option<Box<Node>>) -> Option<Node>
    ensures { option_map tree_of result ≡ of_two (λ q b. node.ForOf q (set_of set) b) (option_map asked_of quant) (option_map tree_of (boxed body)) }
{
    match (quant, body) {
        (Some(quant), Some(body)) => Some(Node::ForOf { quant, set, body }),
        _ => None,
    }
}

pub fn for_in(
    alloc: Global,
    quant: Option<NodeQuant>,
    name: &[u8],
    over: Option<NodeOver>,
    body: Option<Box<Node>>,
) -> Result<Option<Node>, NoMemory>
    ensures { IfOk result (λ n. option_map tree_of n ≡ of_three (λ q d b. node.ForIn q name.now d b) (option_map asked_of quant) (option_map domain_of over) (option_map tree_of (boxed body))) }
{
    let Some(quant) = quant else {
        return Ok(None);
    };
    let Some(over) = over else {
        return Ok(None);
    };
    let Some(body) = body else {
        return Ok(None);
    };
    let name = Vec::from_slice(alloc, name)?;
    Ok(Some(Node::ForIn {
        quant,
        name,
        over,
        body,
    }))
}

pub fn asked_number(count: Option<Box<Node>>) -> Option<NodeQuant>
    ensures { option_map asked_of result ≡ option_map node.AtLeast (option_map tree_of (boxed count)) }
{
    match count {
        Some(count) => Some(NodeQuant::Number(count)),
        None => None,
    }
}

pub fn asked_percent(count: Option<Box<Node>>) -> Option<NodeQuant>
    ensures { option_map asked_of result ≡ option_map node.Percent (option_map tree_of (boxed count)) }
{
    match count {
        Some(count) => Some(NodeQuant::Percent(count)),
        None => None,
    }
}

pub fn place_at(at: Option<Box<Node>>) -> Option<NodePlace>
    ensures { option_map where_of result ≡ option_map node.At (option_map tree_of (boxed at)) }
{
    match at {
        Some(at) => Some(NodePlace::At(at)),
        None => None,
    }
}

pub fn place_within(range: Option<NodeRange>) -> Option<NodePlace>
    ensures { option_map where_of result ≡ option_map (λ r. node.Within r.low r.high) (option_map bounds_of range) }
{
    match range {
        Some(range) => Some(NodePlace::Within(range)),
        None => None,
    }
}

pub fn over_range(range: Option<NodeRange>) -> Option<NodeOver>
    ensures { option_map domain_of result ≡ option_map (λ r. node.OverRange r.low r.high) (option_map bounds_of range) }
{
    match range {
        Some(range) => Some(NodeOver::Range(range)),
        None => None,
    }
}

pub fn over_list(items: Option<Vec<Node>>) -> Option<NodeOver>
    ensures { option_map domain_of result ≡ option_map node.OverList (option_map (λ ns. items_of (map tree_of ns.items)) items) }
{
    match items {
        Some(items) => Some(NodeOver::List(items)),
        None => None,
    }
}
