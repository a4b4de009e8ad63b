//! The `meta` part of a rule.

ghost use Rattle.std.specs.Prelude.{◌≡◌, ◌∷◌, [], map, length, option_map};
ghost use Rattle.yr_parser.specs.Input.{Gives, many};
ghost use Rattle.yr_parser.specs.Ruling as ruling;
ghost use Rattle.yr_syntax.specs.Declaration as tree;
ghost use Rattle.yr_syntax.specs.Declaration.{bytes_of};

use crate::cursor::Cursor;
use crate::fault::Fault;
use crate::lexeme::Lexeme;
use crate::many::{many, with_first};
use crate::sign::Sign;
use std::alloc::Global;
use yr_syntax::{Infix, Meta, MetaValue};

#[tactic(auto, unfolding(crate::specs::Ruling::negative_value))]
fn negative(tokens: &mut Cursor<'_>) -> Result<MetaValue, Fault>
    ensures { Gives tree.value_of (ruling.negative_value tokens.old) result tokens.new }
{
    let value = tokens.number()?;
    Ok(MetaValue::Number(0 - value))
}

#[tactic(auto, unfolding(crate::specs::Ruling::read_value))]
fn value(alloc: Global, tokens: &mut Cursor<'_>) -> Result<MetaValue, Fault>
    ensures { Gives tree.value_of (ruling.read_value tokens.old) result tokens.new }
{
    match tokens.peek() {
        Some(Lexeme::Text(_)) => {
            let text = tokens.text(alloc)?;
            tokens.skip();
            Ok(MetaValue::Text(text))
        }
        Some(Lexeme::Number(value)) => {
            tokens.skip();
            Ok(MetaValue::Number(value))
        }
        Some(Lexeme::Flag(value)) => {
            tokens.skip();
            Ok(MetaValue::Flag(value))
        }
        Some(Lexeme::Operator(Infix::Subtract)) => {
            tokens.skip();
            negative(tokens)
        }
        _ => Err(Fault::Syntax),
    }
}

#[tactic(auto, unfolding(crate::specs::Ruling::read_meta))]
fn entry(alloc: Global, tokens: &mut Cursor<'_>) -> Result<Meta, Fault>
    ensures { Gives tree.meta_of (ruling.read_meta tokens.old) result tokens.new }
{
    let key = tokens.word(alloc)?;
    tokens.expect(Sign::Assign)?;
    let value = value(alloc, tokens)?;
    Ok(Meta { key, value })
}

#[tactic(auto, unfolding(crate::specs::Ruling::next_meta, crate::specs::Ruling::sees_word))]
fn next_entry(alloc: Global, tokens: &mut Cursor<'_>) -> Result<Option<Meta>, Fault>
    ensures { Gives (option_map tree.meta_of) (ruling.next_meta tokens.old) result tokens.new }
{
    match tokens.peek() {
        Some(Lexeme::Word(_)) => {
            let entry = entry(alloc, tokens)?;
            Ok(Some(entry))
        }
        _ => Ok(None),
    }
}

fn more_entries(alloc: Global, tokens: &mut Cursor<'_>) -> Result<Vec<Meta>, Fault>
    ensures { Gives (λ v. map tree.meta_of v.items) (many ruling.next_meta (length tokens.old) tokens.old) result tokens.new }
{
    many(alloc, tokens, |t: &mut Cursor<'_>| next_entry(alloc, t))
}

#[tactic(auto, unfolding(crate::specs::Ruling::metas_from))]
fn entries(alloc: Global, tokens: &mut Cursor<'_>) -> Result<Vec<Meta>, Fault>
    ensures { Gives (λ v. map tree.meta_of v.items) (ruling.metas_from tokens.old) result tokens.new }
{
    tokens.expect(Sign::Colon)?;
    let first = entry(alloc, tokens)?;
    let more = more_entries(alloc, tokens)?;
    Ok(with_first(first, more)?)
}

#[tactic(auto, unfolding(crate::specs::Ruling::meta_part))]
pub fn meta(alloc: Global, tokens: &mut Cursor<'_>) -> Result<Vec<Meta>, Fault>
    ensures { Gives (λ v. map tree.meta_of v.items) (ruling.meta_part tokens.old) result tokens.new }
{
    if !tokens.eat(Sign::Meta) {
        return Ok(Vec::new(alloc));
    }
    entries(alloc, tokens)
}
