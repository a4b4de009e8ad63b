//! Items of a hex string, lists of them, and branches in brackets.

ghost use Rattle.std.specs.Prelude.{length, true};
ghost use Rattle.yr_hex.specs.Parts.{part_of};
ghost use Rattle.yr_hex.specs.Reading as spec;
ghost use Rattle.yr_hex.specs.Reading.{Yields};

use crate::byte::byte;
use crate::cursor::Cursor;
use crate::fault::HexFault;
use crate::jump::read_numbers;
use crate::part::{Choice, List, Part, byte_part, jump_part};
use std::alloc::Global;

#[tactic(auto, unfolding(crate::specs::Reading::read_one))]
fn one(text: &mut Cursor<'_>) -> Result<Part, HexFault>
    ensures { Yields part_of (spec.read_one text.old) result text.new }
{
    let set = byte(text)?;
    Ok(byte_part(set))
}

/// After the `[` of a jump with so many bytes left at it.
#[tactic(auto, unfolding(crate::specs::Reading::read_jump))]
fn jump(alloc: Global, text: &mut Cursor<'_>, inside: bool, left: usize) -> Result<Part, HexFault>
    ensures { Yields part_of (spec.read_jump inside left text.old) result text.new }
{
    let numbers = read_numbers(text)?;
    Ok(jump_part(alloc, inside, left, numbers)?)
}

/// An item, with brackets that nest no deeper than `depth`.
#[cycle(hex)]
#[tactic(auto, unfolding(crate::specs::Reading::read_item))]
fn item(alloc: Global, text: &mut Cursor<'_>, depth: u32, inside: bool) -> Result<Part, HexFault>
    ensures { Yields part_of (spec.read_item inside (spec.group_at depth) text.old) result text.new }
{
    let left = text.left();
    if text.eat(b'(') {
        return group(alloc, text, depth);
    }
    if text.eat(b'[') {
        return jump(alloc, text, inside, left);
    }
    one(text)
}

/// Items up to the end, a `)` or a `|`.
#[cycle(hex)]
#[tactic(auto, unfolding(crate::specs::Reading::read_list))]
pub fn list(
    alloc: Global,
    text: &mut Cursor<'_>,
    depth: u32,
    inside: bool,
) -> Result<Part, HexFault>
    ensures { Yields part_of (spec.read_list inside (spec.group_at depth) text.old) result text.new }
{
    let mut list = List::new(alloc);
    text.skip_gap();
    for _turn in 0..text.left() {
        let part = item(alloc, text, depth, inside)?;
        list.push(part)?;
        text.skip_gap();
        if text.ends() {
            return Ok(list.sequence());
        }
    }
    Err(HexFault::HexSyntax)
}

/// Branches up to a `)`, at the `|` behind the first.
#[cycle(hex)]
fn branches(alloc: Global, text: &mut Cursor<'_>, depth: u32, first: Part) -> Result<Part, HexFault>
    ensures { Yields part_of
        (spec.branches_from (spec.group_at depth) (length text.old) (spec.one_branch (part_of first)) text.old)
        result text.new }
{
    let mut choice = Choice::new(alloc, first)?;
    for _turn in 0..text.left() {
        text.expect(b'|')?;
        let branch = list(alloc, text, depth, true)?;
        choice.push(branch)?;
        if text.eat(b')') {
            return Ok(choice.choice());
        }
    }
    Err(HexFault::HexSyntax)
}

/// What follows a `(`, where brackets nest no deeper than `depth`.
#[cycle(hex)]
#[tactic(auto, unfolding(crate::specs::Reading::read_group))]
fn group(alloc: Global, text: &mut Cursor<'_>, depth: u32) -> Result<Part, HexFault>
    ensures { Yields part_of (spec.group_at depth text.old) result text.new }
{
    if depth == 0 {
        return Err(HexFault::HexSyntax);
    }
    let first = list(alloc, text, depth - 1, true)?;
    if text.eat(b')') {
        return Ok(first);
    }
    branches(alloc, text, depth - 1, first)
}
