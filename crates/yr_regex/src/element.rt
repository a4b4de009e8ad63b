//! Elements and pieces, sequences and branches of them, and groups.

ghost use Rattle.std.specs.Prelude.{◌≡◌, ◌∷◌, Some};
ghost use Rattle.yr_pattern.specs.Tree as tree;
ghost use Rattle.yr_pattern.specs.Tree.{tree_of};
ghost use Rattle.yr_regex.specs.Parts.{part_of, parts_of};
ghost use Rattle.yr_regex.specs.Reading as spec;
ghost use Rattle.yr_regex.specs.Reading.{Yields, Finds};

use crate::bounds::quantifier;
use crate::class::members;
use crate::cursor::Cursor;
use crate::escape::{is_sign, read_escaped, read_kind};
use crate::fault::RegexFault;
use crate::part::{Part, Parts};
use std::alloc::Global;
use yr_pattern::Pattern;

/// How letters and `.` are read.
#[derive(Clone, Copy)]
pub struct Flags {
    pub nocase: bool,
    pub dot_all: bool,
}

/// A byte that is no sign and with which no quantifier begins; `whole` is the text from it on.
#[tactic(auto, unfolding(crate::specs::Reading::byte_at))]
fn byte(text: &mut Cursor<'_>, nocase: bool, b: u8, whole: &[u8]) -> Option<Part>
    requires { whole.now ≡ b ∷ text.now }
    ensures { Finds part_of (spec.byte_at nocase b text.old) result text.new }
{
    if is_sign(b) {
        return None;
    }
    let mut ahead = Cursor::new(whole);
    if quantifier(&mut ahead).is_some() {
        return None;
    }
    Some(Part::byte(nocase, b))
}

/// After a `\`.
#[tactic(auto, unfolding(crate::specs::Reading::escape_at))]
fn escape(text: &mut Cursor<'_>, nocase: bool) -> Option<Part>
    ensures { Finds part_of (spec.escape_at nocase text.old) result text.new }
{
    let mut ahead = Cursor::new(text.rest());
    if let Some(set) = read_kind(&mut ahead) {
        text.set(ahead.rest());
        return Some(Part::set(set));
    }
    let b = read_escaped(text)?;
    Some(Part::byte(nocase, b))
}

/// After a `[`.
#[tactic(auto, unfolding(crate::specs::Reading::class_at))]
fn class(text: &mut Cursor<'_>, nocase: bool) -> Option<Part>
    ensures { Finds part_of (spec.class_at nocase text.old) result text.new }
{
    let negated = text.eat(b'^');
    let bytes = members(text)?;
    Some(Part::class(nocase, negated, bytes))
}

#[tactic(auto, unfolding(crate::specs::Reading::read_edge))]
fn edge(text: &mut Cursor<'_>) -> Option<Pattern>
    ensures { Finds tree_of (spec.read_edge tree.Start tree.End tree.Edge tree.NotEdge text.old) result text.new }
{
    let [c, rest @ ..] = text.rest() else {
        return None;
    };
    text.set(rest);
    match *c {
        b'b' => Some(Pattern::Edge),
        b'B' => Some(Pattern::NotEdge),
        _ => None,
    }
}

#[tactic(auto, unfolding(crate::specs::Reading::read_anchor))]
fn anchor(text: &mut Cursor<'_>) -> Option<Pattern>
    ensures { Finds tree_of (spec.read_anchor tree.Start tree.End tree.Edge tree.NotEdge text.old) result text.new }
{
    let [b, rest @ ..] = text.rest() else {
        return None;
    };
    text.set(rest);
    match *b {
        b'^' => Some(Pattern::Start),
        b'$' => Some(Pattern::End),
        b'\\' => edge(text),
        _ => None,
    }
}

/// The part, with the quantifier behind it where there is one.
#[tactic(auto, unfolding(crate::specs::Reading::quantified_part))]
fn quantified(alloc: Global, text: &mut Cursor<'_>, part: Part) -> Result<Part, RegexFault>
    ensures { Yields part_of (Some (spec.quantified_part (part_of part) text.old)) result text.new }
{
    let left = text.left();
    let mut ahead = Cursor::new(text.rest());
    let Some(bounds) = quantifier(&mut ahead) else {
        return Ok(part);
    };
    let lazy = ahead.eat(b'?');
    text.set(ahead.rest());
    Ok(part.repeated(alloc, left, bounds, lazy)?)
}

/// An element that is no group.
#[tactic(auto, unfolding(crate::specs::Reading::simple_at))]
fn simple(text: &mut Cursor<'_>, flags: Flags, b: u8, whole: &[u8]) -> Option<Part>
    requires { whole.now ≡ b ∷ text.now }
    ensures { Finds part_of (spec.simple_at flags.nocase flags.dot_all b text.old) result text.new }
{
    match b {
        b'[' => class(text, flags.nocase),
        b'\\' => escape(text, flags.nocase),
        b'.' => Some(Part::dot(flags.dot_all)),
        _ => byte(text, flags.nocase, b, whole),
    }
}

/// What a quantifier may follow, with groups that nest no deeper than `depth`.
#[cycle(regex)]
#[tactic(auto, unfolding(crate::specs::Reading::element_at))]
fn element(
    alloc: Global,
    text: &mut Cursor<'_>,
    flags: Flags,
    depth: u32,
) -> Result<Part, RegexFault>
    ensures { Yields part_of
        (spec.element_at flags.nocase flags.dot_all (spec.grouped_at flags.nocase flags.dot_all depth) text.old)
        result text.new }
{
    let whole = text.rest();
    let [b, rest @ ..] = whole else {
        return Err(RegexFault::RegexSyntax);
    };
    text.set(rest);
    if *b == b'(' {
        return group(alloc, text, flags, depth);
    }
    let Some(part) = simple(text, flags, *b, whole) else {
        return Err(RegexFault::RegexSyntax);
    };
    Ok(part)
}

/// A piece, with groups that nest no deeper than `depth`.
#[cycle(regex)]
#[tactic(auto, unfolding(crate::specs::Reading::piece_at))]
fn piece(alloc: Global, text: &mut Cursor<'_>, flags: Flags, depth: u32) -> Result<Part, RegexFault>
    ensures { Yields part_of
        (spec.piece_at flags.nocase flags.dot_all (spec.grouped_at flags.nocase flags.dot_all depth) text.old)
        result text.new }
{
    let mut ahead = Cursor::new(text.rest());
    if let Some(pattern) = anchor(&mut ahead) {
        text.set(ahead.rest());
        return Ok(Part::plain(pattern));
    }
    let part = element(alloc, text, flags, depth)?;
    quantified(alloc, text, part)
}

/// Pieces up to the end, a `)` or a `|`.
#[cycle(regex)]
#[tactic(auto, unfolding(crate::specs::Reading::sequence_at))]
fn sequence(
    alloc: Global,
    text: &mut Cursor<'_>,
    flags: Flags,
    depth: u32,
) -> Result<Part, RegexFault>
    ensures { Yields part_of
        (spec.sequence_at flags.nocase flags.dot_all (spec.grouped_at flags.nocase flags.dot_all depth) text.old)
        result text.new }
{
    let mut pieces = Parts::new(alloc);
    for _turn in 0..text.left() {
        if text.ends() {
            return Ok(pieces.sequence());
        }
        let part = piece(alloc, text, flags, depth)?;
        pieces.push(part)?;
    }
    if text.ends() {
        return Ok(pieces.sequence());
    }
    Err(RegexFault::RegexSyntax)
}

/// Branches behind the first and its `|`, of which there are at most so many.
#[cycle(regex)]
fn branches(
    alloc: Global,
    text: &mut Cursor<'_>,
    flags: Flags,
    depth: u32,
    first: Part,
    count: usize,
) -> Result<Part, RegexFault>
    ensures { Yields part_of
        (spec.branches_at flags.nocase flags.dot_all (spec.grouped_at flags.nocase flags.dot_all depth)
        count (spec.single (part_of first)) text.old)
        result text.new }
{
    let mut branches = Parts::of(alloc, first)?;
    for _turn in 0..count {
        let branch = sequence(alloc, text, flags, depth)?;
        branches.push(branch)?;
        if !text.eat(b'|') {
            return Ok(branches.choice());
        }
    }
    Err(RegexFault::RegexSyntax)
}

/// Branches with `|` between them, with groups that nest no deeper than `depth`.
#[cycle(regex)]
#[tactic(auto, unfolding(crate::specs::Reading::expression_at))]
pub fn expression(
    alloc: Global,
    text: &mut Cursor<'_>,
    flags: Flags,
    depth: u32,
) -> Result<Part, RegexFault>
    ensures { Yields part_of
        (spec.expression_at flags.nocase flags.dot_all (spec.grouped_at flags.nocase flags.dot_all depth) text.old)
        result text.new }
{
    let left = text.left();
    let first = sequence(alloc, text, flags, depth)?;
    if text.eat(b'|') {
        return branches(alloc, text, flags, depth, first, left);
    }
    Ok(first)
}

/// What follows a `(`, where groups nest no deeper than `depth`.
#[cycle(regex)]
fn group(alloc: Global, text: &mut Cursor<'_>, flags: Flags, depth: u32) -> Result<Part, RegexFault>
    ensures { Yields part_of (spec.grouped_at flags.nocase flags.dot_all depth text.old) result text.new }
{
    if depth == 0 {
        return Err(RegexFault::RegexSyntax);
    }
    let inside = expression(alloc, text, flags, depth - 1)?;
    if text.eat(b')') {
        return Ok(inside);
    }
    Err(RegexFault::RegexSyntax)
}
