//! Conditions with a number for each name.

ghost use Rattle.std.specs.Prelude.{◌≡◌, ◌+◌, ◌≤◌, ◌<◌, ◌^◌, [], ◌∷◌, IfOk, OnOk, length, map, max};
ghost use Rattle.std.specs.Bool.{OnTrue};
ghost use Rattle.std.specs.Option.{option_map};
ghost use Rattle.yr_pattern.specs.Tree.{tree_of as pattern_of};
ghost use Rattle.yr_rules.specs.NodeTree.{tree_of, asked_of, where_of, domain_of, bounds_of, links_of, link_of, items_of, boxed};
ghost use Rattle.yr_syntax.specs.Condition as tree;
ghost use Rattle.yr_syntax.specs.Forms as forms;
ghost use Rattle.yr_syntax.specs.Height as height;
ghost use Rattle.yr_conditions.specs.Around.{around_of};
ghost use Rattle.yr_conditions.specs.Meanings.{meaning_of};
ghost use Rattle.yr_conditions.specs.UseViews.{shown};
ghost use Rattle.yr_conditions.specs.Fixed.{the_readers};
ghost use Rattle.yr_conditions.specs.Nodes as spec;
ghost use Rattle.yr_conditions.specs.Room.{IsRoomy};
ghost use Rattle.yr_conditions.specs.Readers.{expression_of};
ghost use Rattle.yr_conditions.specs.Shapes as shape;
ghost use Rattle.yr_conditions.specs.Steps.{OneHasForms, one_height, one_written};
ghost use Rattle.yr_conditions.specs.NodeViews.{bounds, written_of, IsLow};

use crate::making::{
    asked_number, asked_percent, chain, count, count_in, for_in, for_of, found, length, length_at,
    matches, of, offset, offset_at, over_list, over_range, place_at, place_within, range_of, read,
};
use crate::naming::{kept_members, string_ref};
use crate::node_prefix::{prefixed, prefixes};
use crate::reading::{RegexAnswer, regex_answer};
use crate::valued::value;
use crate::{Around, Meaning, Scope, Scopes, opened, path_meaning, then_step, word_meaning};
use std::alloc::Global;
use yr_base::NoMemory;
use yr_rules::{Node, NodeLink, NodeOver, NodePlace, NodeQuant, NodeRange, Pattern};
use yr_syntax::{Cond, Link, Over, PathStep, Place, Quant, Range, RegexText};

/// The pattern of an expression, where it can be read.
#[inline(never)]
fn pattern(alloc: Global, regex: &RegexText) -> Result<Option<Pattern>, NoMemory>
    requires { forms.IsShortText regex.now.text.items }
    ensures { IfOk result (λ p. option_map pattern_of p ≡ spec.regex_node (expression_of the_readers (tree.regex_of regex.now))) }
{
    match regex_answer(alloc, &regex.text, regex.nocase, regex.dot_all)? {
        RegexAnswer::Expression { pattern, .. } => Ok(Some(pattern)),
        _ => Ok(None),
    }
}

/// One condition that is written.
fn one(alloc: Global, index: Option<Node>) -> Result<Vec<Option<Node>>, NoMemory>
    ensures { IfOk result (λ all. all.items ≡ index ∷ []) }
{
    let mut all = Vec::new(alloc);
    all.push(index)?;
    Ok(all)
}

/// The numbers of an entry's loop go to the entries of an array.
fn over_entries(meaning: Meaning<'_>) -> Option<NodeOver>
    ensures { option_map domain_of result ≡ spec.entries_node (shown meaning.entry) }
{
    match meaning {
        Meaning::Array { count, .. } => Some(NodeOver::Entries(count)),
        _ => None,
    }
}

/// What a word means where these loops are open.
#[inline(never)]
fn word_start<'a>(around: &Around<'_, 'a>, word: &[u8], scopes: &Scopes<'a>) -> Meaning<'a>
    ensures means { shown result ≡ meaning_of (around_of around.now) word.now scopes.now }
    ensures known { IsLow (length scopes.now) (length around.now.externals.now) (shown result) }
{
    word_meaning(around, word, scopes)
}

/// What is made of a condition where these loops are open. Chains nest far deeper than anything else, so they are made here, and not inside the large frame of
/// `node_by_form`.
#[cycle(nodes)]
#[inline(never)]
fn node<'a>(
    alloc: Global,
    exact: bool,
    around: &Around<'_, 'a>,
    condition: &'a Cond,
    scopes: &mut Scopes<'a>,
) -> Result<Option<Node>, NoMemory>
    requires room { IsRoomy exact around.now }
    requires forms { forms.HasForms (tree.tree_of condition.now) }
    requires low { height.height (tree.tree_of condition.now) + length scopes.old ≤ forms.height_limit }
    ensures scopes { OnOk result (scopes.new ≡ scopes.old) }
    ensures node { IfOk result (λ n. option_map tree_of n ≡ shape.shape_of exact the_readers (around_of around.now) (tree.tree_of condition.now) scopes.old) }
{
    match condition {
        Cond::Chain { first, rest } => {
            let first = boxed_node(alloc, exact, around, first, scopes)?;
            let rest = links(alloc, exact, around, rest, scopes)?;
            Ok(chain(first, rest))
        }
        _ => node_by_form(alloc, exact, around, condition, scopes),
    }
}

/// The same, form by form.
#[cycle(nodes)]
#[inline(never)]
fn node_by_form<'a>(
    alloc: Global,
    exact: bool,
    around: &Around<'_, 'a>,
    condition: &'a Cond,
    scopes: &mut Scopes<'a>,
) -> Result<Option<Node>, NoMemory>
    requires room { IsRoomy exact around.now }
    requires forms { forms.HasForms (tree.tree_of condition.now) }
    requires low { height.height (tree.tree_of condition.now) + length scopes.old ≤ forms.height_limit }
    ensures scopes { OnOk result (scopes.new ≡ scopes.old) }
    ensures node { IfOk result (λ n. option_map tree_of n ≡ shape.shape_of exact the_readers (around_of around.now) (tree.tree_of condition.now) scopes.old) }
{
    match condition {
        Cond::Number(number) => Ok(Some(Node::Number(*number))),
        Cond::Text(text) => Ok(Some(Node::Text(Vec::from_slice(alloc, text)?))),
        Cond::Flag(flag) => Ok(Some(Node::Flag(*flag))),
        Cond::FileSize => Ok(Some(Node::FileSize)),
        Cond::Path(steps) => match steps.as_slice() {
            [] => Ok(None),
            [head, rest @ ..] => match head {
                PathStep::Name(word) => {
                    let start = word_start(around, word, scopes);
                    steps_behind(alloc, exact, around, rest, start, scopes)
                }
                PathStep::Index(_) | PathStep::Call(_) => Ok(None),
            },
        },
        Cond::Found { name, place } => {
            let string = string_ref(exact, around, name, scopes);
            Ok(found(string, node_place(alloc, exact, around, place, scopes)?))
        }
        Cond::Count { name, range } => node_count(alloc, exact, around, name, range, scopes),
        Cond::Offset { name, index } => node_offset(alloc, exact, around, name, index, scopes),
        Cond::Length { name, index } => node_length(alloc, exact, around, name, index, scopes),
        Cond::Read { reader, at } => {
            let at = boxed_node(alloc, exact, around, at, scopes)?;
            Ok(read(*reader, at))
        }
        Cond::Prefix { op, inner } => {
            let run = prefixes(alloc, *op, inner)?;
            let operand = boxed_node(alloc, exact, around, run.1, scopes)?;
            prefixed(alloc, run.0, operand)
        }
        Cond::Chain { first, rest } => {
            let first = boxed_node(alloc, exact, around, first, scopes)?;
            let rest = links(alloc, exact, around, rest, scopes)?;
            Ok(chain(first, rest))
        }
        Cond::Matches { text, regex } => {
            let text = boxed_node(alloc, exact, around, text, scopes)?;
            Ok(matches(text, pattern(alloc, regex)?))
        }
        Cond::Of { quant, set, place } => {
            let asked = node_asked(alloc, exact, around, quant, scopes)?;
            let set = kept_members(alloc, exact, around, set)?;
            Ok(of(asked, set, node_place(alloc, exact, around, place, scopes)?))
        }
        Cond::ForOf { quant, set, body } => {
            let asked = node_asked(alloc, exact, around, quant, scopes)?;
            let set = kept_members(alloc, exact, around, set)?;
            scopes.enter(Scope::Members)?;
            let body = boxed_node(alloc, exact, around, body, scopes)?;
            scopes.leave();
            Ok(for_of(asked, set, body))
        }
        Cond::ForIn {
            quant,
            name,
            over,
            body,
        } => {
            let asked = node_asked(alloc, exact, around, quant, scopes)?;
            let domain = node_over(alloc, exact, around, over, scopes)?;
            let inner = opened(around, name, over, scopes);
            scopes.enter(inner)?;
            let body = boxed_node(alloc, exact, around, body, scopes)?;
            scopes.leave();
            for_in(alloc, asked, name, domain, body)
        }
    }
}

/// The same in a box: where one condition stands in another, this keeps what is made of it off the stack.
#[cycle(nodes)]
#[inline(never)]
fn boxed_node<'a>(
    alloc: Global,
    exact: bool,
    around: &Around<'_, 'a>,
    condition: &'a Cond,
    scopes: &mut Scopes<'a>,
) -> Result<Option<Box<Node>>, NoMemory>
    requires room { IsRoomy exact around.now }
    requires forms { forms.HasForms (tree.tree_of condition.now) }
    requires low { height.height (tree.tree_of condition.now) + length scopes.old ≤ forms.height_limit }
    ensures scopes { OnOk result (scopes.new ≡ scopes.old) }
    ensures node { IfOk result (λ n. option_map tree_of (boxed n) ≡ shape.shape_of exact the_readers (around_of around.now) (tree.tree_of condition.now) scopes.old) }
{
    match node(alloc, exact, around, condition, scopes)? {
        Some(node) => Ok(Some(Box::new(alloc, node)?)),
        None => Ok(None),
    }
}

#[cycle(nodes)]
#[inline(never)]
fn node_range<'a>(
    alloc: Global,
    exact: bool,
    around: &Around<'_, 'a>,
    range: &'a Range,
    scopes: &mut Scopes<'a>,
) -> Result<Option<NodeRange>, NoMemory>
    requires room { IsRoomy exact around.now }
    requires forms { forms.HasForms (tree.bounds_of range.now).low × forms.HasForms (tree.bounds_of range.now).high }
    requires low { max (height.height (tree.bounds_of range.now).low) (height.height (tree.bounds_of range.now).high) + length scopes.old ≤ forms.height_limit }
    ensures scopes { OnOk result (scopes.new ≡ scopes.old) }
    ensures node { IfOk result (λ n. option_map bounds_of n ≡ spec.of_two bounds (shape.shape_of exact the_readers (around_of around.now) (tree.bounds_of range.now).low scopes.old) (shape.shape_of exact the_readers (around_of around.now) (tree.bounds_of range.now).high scopes.old)) }
{
    let low = boxed_node(alloc, exact, around, &range.low, scopes)?;
    let high = boxed_node(alloc, exact, around, &range.high, scopes)?;
    Ok(range_of(low, high))
}

/// What is made of a count, in a range or without one.
#[cycle(nodes)]
#[inline(never)]
fn node_count<'a>(
    alloc: Global,
    exact: bool,
    around: &Around<'_, 'a>,
    name: &'a [u8],
    range: &'a Option<Range>,
    scopes: &mut Scopes<'a>,
) -> Result<Option<Node>, NoMemory>
    requires room { IsRoomy exact around.now }
    requires forms { forms.HasForms (tree.count_of name.now (option_map tree.bounds_of range.now)) }
    requires low { height.height (tree.count_of name.now (option_map tree.bounds_of range.now)) + length scopes.old ≤ forms.height_limit }
    ensures scopes { OnOk result (scopes.new ≡ scopes.old) }
    ensures node { IfOk result (λ n. option_map tree_of n ≡ shape.shape_of exact the_readers (around_of around.now) (tree.count_of name.now (option_map tree.bounds_of range.now)) scopes.old) }
{
    let string = string_ref(exact, around, name, scopes);
    match range {
        None => Ok(count(string)),
        Some(range) => Ok(count_in(string, node_range(alloc, exact, around, range, scopes)?)),
    }
}

/// What is made of an offset, with an index or without one.
#[cycle(nodes)]
#[inline(never)]
fn node_offset<'a>(
    alloc: Global,
    exact: bool,
    around: &Around<'_, 'a>,
    name: &'a [u8],
    index: &'a Option<Box<Cond>>,
    scopes: &mut Scopes<'a>,
) -> Result<Option<Node>, NoMemory>
    requires room { IsRoomy exact around.now }
    requires forms { forms.HasForms (tree.offset_of name.now (option_map tree.tree_of (tree.boxed index.now))) }
    requires low { height.height (tree.offset_of name.now (option_map tree.tree_of (tree.boxed index.now))) + length scopes.old ≤ forms.height_limit }
    ensures scopes { OnOk result (scopes.new ≡ scopes.old) }
    ensures node { IfOk result (λ n. option_map tree_of n ≡ shape.shape_of exact the_readers (around_of around.now) (tree.offset_of name.now (option_map tree.tree_of (tree.boxed index.now))) scopes.old) }
{
    let string = string_ref(exact, around, name, scopes);
    match index {
        None => Ok(offset(string)),
        Some(index) => {
            let index = boxed_node(alloc, exact, around, index, scopes)?;
            Ok(offset_at(string, index))
        }
    }
}

/// What is made of a length, with an index or without one.
#[cycle(nodes)]
#[inline(never)]
fn node_length<'a>(
    alloc: Global,
    exact: bool,
    around: &Around<'_, 'a>,
    name: &'a [u8],
    index: &'a Option<Box<Cond>>,
    scopes: &mut Scopes<'a>,
) -> Result<Option<Node>, NoMemory>
    requires room { IsRoomy exact around.now }
    requires forms { forms.HasForms (tree.length_of name.now (option_map tree.tree_of (tree.boxed index.now))) }
    requires low { height.height (tree.length_of name.now (option_map tree.tree_of (tree.boxed index.now))) + length scopes.old ≤ forms.height_limit }
    ensures scopes { OnOk result (scopes.new ≡ scopes.old) }
    ensures node { IfOk result (λ n. option_map tree_of n ≡ shape.shape_of exact the_readers (around_of around.now) (tree.length_of name.now (option_map tree.tree_of (tree.boxed index.now))) scopes.old) }
{
    let string = string_ref(exact, around, name, scopes);
    match index {
        None => Ok(length(string)),
        Some(index) => {
            let index = boxed_node(alloc, exact, around, index, scopes)?;
            Ok(length_at(string, index))
        }
    }
}

#[cycle(nodes)]
#[inline(never)]
fn links<'a>(
    alloc: Global,
    exact: bool,
    around: &Around<'_, 'a>,
    rest: &'a [Link],
    scopes: &mut Scopes<'a>,
) -> Result<Option<Vec<NodeLink>>, NoMemory>
    requires room { IsRoomy exact around.now }
    requires forms { forms.LinksHaveForms (tree.links_of (map tree.link_of rest.now)) }
    requires low { height.links_height (tree.links_of (map tree.link_of rest.now)) + length scopes.old ≤ forms.height_limit }
    ensures scopes { OnOk result (scopes.new ≡ scopes.old) }
    ensures node { IfOk result (λ n. option_map (λ ls. links_of (map link_of ls.items)) n ≡ shape.links_shape exact the_readers (around_of around.now) (tree.links_of (map tree.link_of rest.now)) scopes.old) }
{
    let mut all = Vec::new(alloc);
    for link in rest {
        let Some(operand) = node(alloc, exact, around, &link.operand, scopes)? else {
            return Ok(None);
        };
        let op = link.op;
        all.push(NodeLink { op, operand })?;
    }
    Ok(Some(all))
}

/// What is made of the items of a list.
#[cycle(nodes)]
#[inline(never)]
fn items<'a>(
    alloc: Global,
    exact: bool,
    around: &Around<'_, 'a>,
    all: &'a [Cond],
    scopes: &mut Scopes<'a>,
) -> Result<Option<Vec<Node>>, NoMemory>
    requires room { IsRoomy exact around.now }
    requires forms { forms.ItemsHaveForms (tree.items_of (map tree.tree_of all.now)) }
    requires low { height.items_height (tree.items_of (map tree.tree_of all.now)) + length scopes.old ≤ forms.height_limit }
    ensures scopes { OnOk result (scopes.new ≡ scopes.old) }
    ensures node { IfOk result (λ n. option_map (λ ns. items_of (map tree_of ns.items)) n ≡ spec.items_node (shape.each_shape exact the_readers (around_of around.now) (tree.items_of (map tree.tree_of all.now)) scopes.old)) }
{
    let mut made = Vec::new(alloc);
    for item in all {
        let Some(one) = node(alloc, exact, around, item, scopes)? else {
            return Ok(None);
        };
        made.push(one)?;
    }
    Ok(Some(made))
}

/// What is made of each argument of a call.
#[cycle(nodes)]
#[inline(never)]
fn each<'a>(
    alloc: Global,
    exact: bool,
    around: &Around<'_, 'a>,
    all: &'a [Cond],
    scopes: &mut Scopes<'a>,
) -> Result<Vec<Option<Node>>, NoMemory>
    requires room { IsRoomy exact around.now }
    requires forms { forms.ItemsHaveForms (tree.items_of (map tree.tree_of all.now)) }
    requires low { height.items_height (tree.items_of (map tree.tree_of all.now)) + length scopes.old ≤ forms.height_limit }
    ensures scopes { OnOk result (scopes.new ≡ scopes.old) }
    ensures node { IfOk result (λ n. written_of n.items ≡ shape.each_shape exact the_readers (around_of around.now) (tree.items_of (map tree.tree_of all.now)) scopes.old) }
{
    let mut made = Vec::new(alloc);
    for item in all {
        made.push(node(alloc, exact, around, item, scopes)?)?;
    }
    Ok(made)
}

/// The index or the arguments that are written last, with one more part behind.
#[cycle(nodes)]
#[inline(never)]
fn step_written<'a>(
    alloc: Global,
    exact: bool,
    around: &Around<'_, 'a>,
    step: &'a PathStep,
    written: Vec<Option<Node>>,
    scopes: &mut Scopes<'a>,
) -> Result<Vec<Option<Node>>, NoMemory>
    requires room { IsRoomy exact around.now }
    requires forms { OneHasForms (tree.step_of step.now) }
    requires low { one_height (tree.step_of step.now) + length scopes.old ≤ forms.height_limit }
    ensures scopes { OnOk result (scopes.new ≡ scopes.old) }
    ensures written { IfOk result (λ w. written_of w.items ≡ one_written exact the_readers (around_of around.now) (tree.step_of step.now) (written_of written.items) scopes.old) }
{
    match step {
        PathStep::Name(_) => Ok(written),
        PathStep::Index(index) => one(alloc, node(alloc, exact, around, index, scopes)?),
        PathStep::Call(arguments) => each(alloc, exact, around, arguments, scopes),
    }
}

/// What is made of a path behind what means this.
#[cycle(nodes)]
#[inline(never)]
fn steps_behind<'a>(
    alloc: Global,
    exact: bool,
    around: &Around<'_, 'a>,
    steps: &'a [PathStep],
    start: Meaning<'a>,
    scopes: &mut Scopes<'a>,
) -> Result<Option<Node>, NoMemory>
    requires room { IsRoomy exact around.now }
    requires known { IsLow (length scopes.old) (length around.now.externals.now) (shown start) }
    requires forms { forms.StepsHaveForms (tree.steps_of (map tree.step_of steps.now)) }
    requires low { height.steps_height (tree.steps_of (map tree.step_of steps.now)) + length scopes.old ≤ forms.height_limit }
    ensures scopes { OnOk result (scopes.new ≡ scopes.old) }
    ensures node { IfOk result (λ n. option_map tree_of n ≡ shape.steps_shape exact the_readers (around_of around.now) (tree.steps_of (map tree.step_of steps.now)) (shown start.entry) [] scopes.old) }
{
    let mut meaning = start;
    let mut written = Vec::new(alloc);
    for step in steps {
        written = step_written(alloc, exact, around, step, written, scopes)?;
        meaning = then_step(meaning, step);
    }
    value(alloc, exact, around.externals, meaning, written)
}

#[cycle(nodes)]
#[inline(never)]
fn node_place<'a>(
    alloc: Global,
    exact: bool,
    around: &Around<'_, 'a>,
    place: &'a Place,
    scopes: &mut Scopes<'a>,
) -> Result<Option<NodePlace>, NoMemory>
    requires room { IsRoomy exact around.now }
    requires forms { forms.PlaceHasForms (tree.where_of place.now) }
    requires low { height.where_height (tree.where_of place.now) + length scopes.old ≤ forms.height_limit }
    ensures scopes { OnOk result (scopes.new ≡ scopes.old) }
    ensures node { IfOk result (λ n. option_map where_of n ≡ shape.place_shape exact the_readers (around_of around.now) (tree.where_of place.now) scopes.old) }
{
    match place {
        Place::Anywhere => Ok(Some(NodePlace::Anywhere)),
        Place::At(at) => {
            let at = boxed_node(alloc, exact, around, at, scopes)?;
            Ok(place_at(at))
        }
        Place::Within(range) => Ok(place_within(node_range(alloc, exact, around, range, scopes)?)),
    }
}

#[cycle(nodes)]
#[inline(never)]
fn node_asked<'a>(
    alloc: Global,
    exact: bool,
    around: &Around<'_, 'a>,
    quant: &'a Quant,
    scopes: &mut Scopes<'a>,
) -> Result<Option<NodeQuant>, NoMemory>
    requires room { IsRoomy exact around.now }
    requires forms { forms.AskedHasForms (tree.asked_of quant.now) }
    requires low { height.asked_height (tree.asked_of quant.now) + length scopes.old ≤ forms.height_limit }
    ensures scopes { OnOk result (scopes.new ≡ scopes.old) }
    ensures node { IfOk result (λ n. option_map asked_of n ≡ shape.asked_shape exact the_readers (around_of around.now) (tree.asked_of quant.now) scopes.old) }
{
    match quant {
        Quant::All => Ok(Some(NodeQuant::All)),
        Quant::Any => Ok(Some(NodeQuant::Any)),
        Quant::Nil => Ok(Some(NodeQuant::Nil)),
        Quant::Number(count) => {
            let count = boxed_node(alloc, exact, around, count, scopes)?;
            Ok(asked_number(count))
        }
        Quant::Percent(count) => {
            let count = boxed_node(alloc, exact, around, count, scopes)?;
            Ok(asked_percent(count))
        }
    }
}

#[cycle(nodes)]
#[inline(never)]
fn node_over<'a>(
    alloc: Global,
    exact: bool,
    around: &Around<'_, 'a>,
    over: &'a Over,
    scopes: &mut Scopes<'a>,
) -> Result<Option<NodeOver>, NoMemory>
    requires room { IsRoomy exact around.now }
    requires forms { forms.DomainHasForms (tree.domain_of over.now) }
    requires low { height.domain_height (tree.domain_of over.now) + length scopes.old ≤ forms.height_limit }
    ensures scopes { OnOk result (scopes.new ≡ scopes.old) }
    ensures node { IfOk result (λ n. option_map domain_of n ≡ shape.domain_shape exact the_readers (around_of around.now) (tree.domain_of over.now) scopes.old) }
{
    match over {
        Over::Range(range) => Ok(over_range(node_range(alloc, exact, around, range, scopes)?)),
        Over::List(all) => Ok(over_list(items(alloc, exact, around, all, scopes)?)),
        Over::Path(steps) => Ok(over_entries(path_meaning(around, steps, scopes))),
    }
}

/// What is made of a whole condition: the checked condition that it stands for, or where numbers are not wanted one of its shape.
pub fn condition_node<'a>(
    alloc: Global,
    exact: bool,
    around: &Around<'_, 'a>,
    condition: &'a Cond,
) -> Result<Option<Node>, NoMemory>
    requires room { IsRoomy exact around.now }
    requires forms { forms.HasForms (tree.tree_of condition.now) }
    requires low { height.height (tree.tree_of condition.now) ≤ forms.height_limit }
    ensures { IfOk result (λ n. option_map tree_of n ≡ shape.shape_of exact the_readers (around_of around.now) (tree.tree_of condition.now) []) }
{
    let mut scopes = Scopes::new(alloc);
    node(alloc, exact, around, condition, &mut scopes)
}
