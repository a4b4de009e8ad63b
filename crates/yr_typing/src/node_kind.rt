//! The kinds of checked conditions.

ghost use Rattle.std.specs.Prelude.{◌≡◌, [], map};
ghost use Rattle.std.specs.Option.{option_map};
ghost use Rattle.yr_rules.specs.Kinds as spec;
ghost use Rattle.yr_rules.specs.Loops.{loop_over as loop_of_domain};
ghost use Rattle.yr_rules.specs.NodeTree.{tree_of, asked_of, where_of, domain_of, bounds_of, links_of, link_of, items_of, boxed, set_of};
ghost use Rattle.yr_rules.specs.Rules.{external_of};
ghost use Rattle.yr_typing.specs.Open.{loop_of, open_of};
ghost use Rattle.yr_typing.specs.Parts.{range_kind, index_kind as kind_of_index, field_kind as kind_of_field};

use crate::loops::{Loop, Loops, open_loop};
use crate::operator_kind::{
    both, infix_kind, of_number, of_numbers, of_text, of_value, prefix_kind,
};
use crate::prefixes::{behind, no_prefix, then};
use yr_rules::{
    External, ExternalValue, Kind, Members, Node, NodeLink, NodeOver, NodePlace, NodeQuant,
    NodeRange, PrefixOp,
};

/// The kind of the external with a number.
pub fn external_kind(externals: &[External], number: usize) -> Option<Kind>
    ensures { result ≡ spec.external_kind (map external_of externals.now) number }
{
    match externals.get(number) {
        None => None,
        Some(external) => match external.value {
            ExternalValue::Number(_) => Some(Kind::Number),
            ExternalValue::Flag(_) => Some(Kind::Flag),
            ExternalValue::Text(_) => Some(Kind::Text),
        },
    }
}

fn variable_kind(turns: Option<Loop>) -> Option<Kind>
    ensures { result ≡ spec.variable_kind (option_map loop_of turns) }
{
    match turns {
        Some(Loop::Numbers) => Some(Kind::Number),
        _ => None,
    }
}

/// The variable of a loop over entries serves as the index of a field.
fn own_index(index: &Node, loops: &Loops<'_>) -> Option<Kind>
    ensures { result ≡ spec.own_index (tree_of index.now) (open_of loops.now) }
{
    match index {
        Node::Var(number) => match open_loop(loops, *number) {
            Some(Loop::Entries) => Some(Kind::Number),
            _ => None,
        },
        _ => None,
    }
}

fn place_fits(set: &Members, place: &NodePlace) -> bool
    ensures { result ≡ spec.place_fits (set_of set.now) (where_of place.now) }
{
    match set {
        Members::Strings(_) => true,
        Members::Rules(_) => match place {
            NodePlace::Anywhere => true,
            _ => false,
        },
    }
}

fn loop_fits(set: &Members) -> bool
    ensures { result ≡ spec.loop_fits (set_of set.now) }
{
    match set {
        Members::Strings(_) => true,
        Members::Rules(_) => false,
    }
}

fn where_true(test: bool, kind: Option<Kind>) -> Option<Kind>
    ensures { result ≡ spec.where_true test kind }
{
    if test { kind } else { None }
}

/// The loop that goes over this.
pub fn loop_over(over: &NodeOver) -> Loop
    ensures { loop_of result ≡ loop_of_domain (domain_of over.now) }
{
    match over {
        NodeOver::Entries(_) => Loop::Entries,
        _ => Loop::Numbers,
    }
}

/// The kind of a condition's value where these loops are open, or None where an operand has the wrong kind.
#[cycle(kinds)]
fn kind_of(externals: &[External], node: &Node, loops: &Loops<'_>) -> Option<Kind>
    ensures { result ≡ spec.kind_of (map external_of externals.now) (tree_of node.now) (open_of loops.now) }
{
    match node {
        Node::Number(_) | Node::FileSize => Some(Kind::Number),
        Node::Text(_) => Some(Kind::Text),
        Node::Flag(_) | Node::RuleTruth(_) => Some(Kind::Flag),
        Node::External(number) => external_kind(externals, *number as usize),
        Node::Var(number) => variable_kind(open_loop(loops, *number)),
        Node::Field { kind, index, .. } => field_kind(externals, *kind, index, loops),
        Node::Call {
            kind,
            from,
            size,
            ..
        } => of_numbers(
            kind_of(externals, from, loops),
            kind_of(externals, size, loops),
            *kind,
        ),
        Node::Found { place, .. } => of_number(place_kind(externals, place, loops), Kind::Flag),
        Node::Count { range, .. } => count_kind(externals, range, loops),
        Node::Offset { index, .. } | Node::Length { index, .. } => {
            index_kind(externals, index, loops)
        }
        Node::Read { at, .. } => of_number(kind_of(externals, at, loops), Kind::Number),
        Node::Prefix { op, inner } => prefixes_kind(externals, *op, inner, loops),
        Node::Chain { first, rest } => {
            let first = kind_of(externals, first, loops);
            links_kind(externals, first, rest, loops)
        }
        Node::Matches { text, .. } => of_text(kind_of(externals, text, loops), Kind::Flag),
        Node::Of { quant, set, place } => {
            let asked = asked_kind(externals, quant, loops);
            let place_is = place_kind(externals, place, loops);
            where_true(
                place_fits(set, place),
                of_numbers(asked, place_is, Kind::Flag),
            )
        }
        Node::ForOf { quant, set, body } => {
            let asked = loop_asked_kind(externals, quant, loops);
            let inside = Loops::Inside(Loop::Members, &*loops);
            let body = of_value(kind_of(externals, body, &inside));
            where_true(loop_fits(set), both(asked, body))
        }
        Node::ForIn {
            quant,
            over,
            body,
            ..
        } => {
            let asked = loop_asked_kind(externals, quant, loops);
            let domain = domain_kind(externals, over, loops);
            let inside = Loops::Inside(loop_over(over), &*loops);
            let body = of_value(kind_of(externals, body, &inside));
            both(asked, both(domain, body))
        }
    }
}

/// The kind behind a run of prefix operators, which is taken in a loop.
#[cycle(kinds)]
fn prefixes_kind(
    externals: &[External],
    op: PrefixOp,
    inner: &Node,
    loops: &Loops<'_>,
) -> Option<Kind>
    ensures { result ≡ spec.prefix_kind op (spec.kind_of (map external_of externals.now) (tree_of inner.now) (open_of loops.now)) }
{
    let mut run = then(no_prefix(), op);
    let mut operand = inner;
    while let Node::Prefix { op, inner } = operand {
        run = then(run, *op);
        operand = inner;
    }
    behind(run, kind_of(externals, operand, loops))
}

#[cycle(kinds)]
fn field_kind(
    externals: &[External],
    kind: Kind,
    index: &Option<Box<Node>>,
    loops: &Loops<'_>,
) -> Option<Kind>
    ensures { result ≡ kind_of_field (map external_of externals.now) kind (option_map tree_of (boxed index.now)) (open_of loops.now) }
{
    match index {
        None => Some(kind),
        Some(index) => {
            let own = own_index(index, loops);
            of_number(own.or(kind_of(externals, index, loops)), kind)
        }
    }
}

#[cycle(kinds)]
fn count_kind(externals: &[External], range: &Option<NodeRange>, loops: &Loops<'_>) -> Option<Kind>
    ensures { result ≡ range_kind (map external_of externals.now) (option_map bounds_of range.now) (open_of loops.now) }
{
    match range {
        None => Some(Kind::Number),
        Some(range) => of_numbers(
            kind_of(externals, &range.low, loops),
            kind_of(externals, &range.high, loops),
            Kind::Number,
        ),
    }
}

#[cycle(kinds)]
fn index_kind(externals: &[External], index: &Option<Box<Node>>, loops: &Loops<'_>) -> Option<Kind>
    ensures { result ≡ kind_of_index (map external_of externals.now) (option_map tree_of (boxed index.now)) (open_of loops.now) }
{
    match index {
        None => Some(Kind::Number),
        Some(index) => of_number(kind_of(externals, index, loops), Kind::Number),
    }
}

/// A level is read from the left.
#[cycle(kinds)]
fn links_kind(
    externals: &[External],
    first: Option<Kind>,
    links: &[NodeLink],
    loops: &Loops<'_>,
) -> Option<Kind>
    ensures { result ≡ spec.links_kind (map external_of externals.now) first (links_of (map link_of links.now)) (open_of loops.now) }
{
    let mut before = first;
    for link in links {
        let operand = kind_of(externals, &link.operand, loops);
        before = infix_kind(link.op, before, operand);
    }
    before
}

#[cycle(kinds)]
fn place_kind(externals: &[External], place: &NodePlace, loops: &Loops<'_>) -> Option<Kind>
    ensures { result ≡ spec.place_kind (map external_of externals.now) (where_of place.now) (open_of loops.now) }
{
    match place {
        NodePlace::Anywhere => Some(Kind::Number),
        NodePlace::At(at) => of_number(kind_of(externals, at, loops), Kind::Number),
        NodePlace::Within(range) => of_numbers(
            kind_of(externals, &range.low, loops),
            kind_of(externals, &range.high, loops),
            Kind::Number,
        ),
    }
}

#[cycle(kinds)]
fn asked_kind(externals: &[External], quant: &NodeQuant, loops: &Loops<'_>) -> Option<Kind>
    ensures { result ≡ spec.asked_kind (map external_of externals.now) (asked_of quant.now) (open_of loops.now) }
{
    match quant {
        NodeQuant::All | NodeQuant::Any | NodeQuant::Nil => Some(Kind::Number),
        NodeQuant::Number(count) | NodeQuant::Percent(count) => {
            of_number(kind_of(externals, count, loops), Kind::Number)
        }
    }
}

/// The same in a loop, which asks for no percentage.
#[cycle(kinds)]
fn loop_asked_kind(externals: &[External], quant: &NodeQuant, loops: &Loops<'_>) -> Option<Kind>
    ensures { result ≡ spec.loop_asked_kind (map external_of externals.now) (asked_of quant.now) (open_of loops.now) }
{
    match quant {
        NodeQuant::All | NodeQuant::Any | NodeQuant::Nil => Some(Kind::Number),
        NodeQuant::Number(count) => of_number(kind_of(externals, count, loops), Kind::Number),
        NodeQuant::Percent(_) => None,
    }
}

#[cycle(kinds)]
fn domain_kind(externals: &[External], over: &NodeOver, loops: &Loops<'_>) -> Option<Kind>
    ensures { result ≡ spec.domain_kind (map external_of externals.now) (domain_of over.now) (open_of loops.now) }
{
    match over {
        NodeOver::Range(range) => of_numbers(
            kind_of(externals, &range.low, loops),
            kind_of(externals, &range.high, loops),
            Kind::Number,
        ),
        NodeOver::List(items) => {
            if items.is_empty() {
                None
            } else {
                items_kind(externals, items, loops)
            }
        }
        NodeOver::Entries(_) => Some(Kind::Number),
    }
}

/// The items of a list are numbers.
#[cycle(kinds)]
fn items_kind(externals: &[External], items: &[Node], loops: &Loops<'_>) -> Option<Kind>
    ensures { result ≡ spec.items_kind (map external_of externals.now) (items_of (map tree_of items.now)) (open_of loops.now) }
{
    let mut all = Some(Kind::Number);
    for i in (0..items.len()).rev() {
        all = both(
            of_number(kind_of(externals, &items[i], loops), Kind::Number),
            all,
        );
    }
    all
}

/// The kind of a condition's value, or None where an operand has the wrong kind.
pub fn condition_kind(externals: &[External], node: &Node) -> Option<Kind>
    ensures { result ≡ spec.kind_of (map external_of externals.now) (tree_of node.now) [] }
{
    kind_of(externals, node, &Loops::None)
}
