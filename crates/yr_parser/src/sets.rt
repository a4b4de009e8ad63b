//! Sets of strings and of rules.

ghost use Rattle.std.specs.Prelude.{◌≡◌, ◌∷◌, IfOk, map, length, option_map};
ghost use Rattle.yr_parser.specs.Input.{Gives, many};
ghost use Rattle.yr_parser.specs.Reading as reading;
ghost use Rattle.yr_syntax.specs.Condition as tree;

use crate::cursor::Cursor;
use crate::fault::Fault;
use crate::lexeme::Lexeme;
use crate::many::{many, with_first};
use crate::sign::Sign;
use std::alloc::Global;
use yr_base::NoMemory;
use yr_syntax::{Infix, SetItem, SetRef};

fn item(alloc: Global, name: &[u8], wild: bool) -> Result<SetItem, NoMemory>
    ensures { IfOk result (λ i. tree.item_of i ≡ record { name = name.now; wild = wild }) }
{
    let name = Vec::from_slice(alloc, name)?;
    Ok(SetItem { name, wild })
}

#[tactic(auto, unfolding(crate::specs::Reading::read_string_item, crate::specs::Reading::string_item_at))]
fn string_item(alloc: Global, tokens: &mut Cursor<'_>) -> Result<SetItem, Fault>
    ensures { Gives tree.item_of (reading.read_string_item tokens.old) result tokens.new }
{
    match tokens.peek() {
        Some(Lexeme::StringName(name)) => {
            let item = item(alloc, name, false)?;
            tokens.skip();
            Ok(item)
        }
        Some(Lexeme::StringWild(name)) => {
            let item = item(alloc, name, true)?;
            tokens.skip();
            Ok(item)
        }
        _ => Err(Fault::Syntax),
    }
}

#[tactic(auto, unfolding(crate::specs::Reading::next_string_item))]
fn next_string_item(alloc: Global, tokens: &mut Cursor<'_>) -> Result<Option<SetItem>, Fault>
    ensures { Gives (option_map tree.item_of) (reading.next_string_item tokens.old) result tokens.new }
{
    if !tokens.eat(Sign::Comma) {
        return Ok(None);
    }
    let item = string_item(alloc, tokens)?;
    Ok(Some(item))
}

fn more_string_items(alloc: Global, tokens: &mut Cursor<'_>) -> Result<Vec<SetItem>, Fault>
    ensures { Gives (λ v. map tree.item_of v.items) (many reading.next_string_item (length tokens.old) tokens.old) result tokens.new }
{
    many(
        alloc,
        tokens,
        |t: &mut Cursor<'_>| next_string_item(alloc, t),
    )
}

#[tactic(auto, unfolding(crate::specs::Reading::read_strings, crate::specs::Reading::read_string_items))]
fn strings(alloc: Global, tokens: &mut Cursor<'_>) -> Result<SetRef, Fault>
    ensures { Gives tree.set_of (reading.read_strings tokens.old) result tokens.new }
{
    let first = string_item(alloc, tokens)?;
    let more = more_string_items(alloc, tokens)?;
    tokens.expect(Sign::Close)?;
    Ok(SetRef::Strings(with_first(first, more)?))
}

#[tactic(auto, unfolding(crate::specs::Reading::read_rule_item))]
fn rule_item(alloc: Global, tokens: &mut Cursor<'_>) -> Result<SetItem, Fault>
    ensures { Gives tree.item_of (reading.read_rule_item tokens.old) result tokens.new }
{
    let name = tokens.word(alloc)?;
    let wild = tokens.sees_operator(Infix::Multiply);
    if wild {
        tokens.skip();
    }
    Ok(SetItem { name, wild })
}

#[tactic(auto, unfolding(crate::specs::Reading::next_rule_item))]
fn next_rule_item(alloc: Global, tokens: &mut Cursor<'_>) -> Result<Option<SetItem>, Fault>
    ensures { Gives (option_map tree.item_of) (reading.next_rule_item tokens.old) result tokens.new }
{
    if !tokens.eat(Sign::Comma) {
        return Ok(None);
    }
    let item = rule_item(alloc, tokens)?;
    Ok(Some(item))
}

fn more_rule_items(alloc: Global, tokens: &mut Cursor<'_>) -> Result<Vec<SetItem>, Fault>
    ensures { Gives (λ v. map tree.item_of v.items) (many reading.next_rule_item (length tokens.old) tokens.old) result tokens.new }
{
    many(alloc, tokens, |t: &mut Cursor<'_>| next_rule_item(alloc, t))
}

#[tactic(auto, unfolding(crate::specs::Reading::read_rules, crate::specs::Reading::read_rule_items))]
fn rules(alloc: Global, tokens: &mut Cursor<'_>) -> Result<SetRef, Fault>
    ensures { Gives tree.set_of (reading.read_rules tokens.old) result tokens.new }
{
    let first = rule_item(alloc, tokens)?;
    let more = more_rule_items(alloc, tokens)?;
    tokens.expect(Sign::Close)?;
    Ok(SetRef::Rules(with_first(first, more)?))
}

/// The members of a set, after its bracket.
#[tactic(auto, unfolding(crate::specs::Reading::read_members, crate::specs::Reading::string_item_at))]
fn members(alloc: Global, tokens: &mut Cursor<'_>) -> Result<SetRef, Fault>
    ensures { Gives tree.set_of (reading.read_members tokens.old) result tokens.new }
{
    match tokens.peek() {
        Some(Lexeme::StringName(_) | Lexeme::StringWild(_)) => strings(alloc, tokens),
        _ => rules(alloc, tokens),
    }
}

#[tactic(auto, unfolding(crate::specs::Reading::read_set))]
pub fn set(alloc: Global, tokens: &mut Cursor<'_>) -> Result<SetRef, Fault>
    ensures { Gives tree.set_of (reading.read_set tokens.old) result tokens.new }
{
    if tokens.eat(Sign::Them) {
        return Ok(SetRef::Them);
    }
    tokens.expect(Sign::Open)?;
    members(alloc, tokens)
}
