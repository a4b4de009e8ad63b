//! The modifiers of a string.

ghost use Rattle.std.specs.Prelude.{◌≡◌, ◌∷◌, [], map, length, option_map};
ghost use Rattle.yr_parser.specs.Input.{Gives, many};
ghost use Rattle.yr_parser.specs.Ruling as ruling;
ghost use Rattle.yr_syntax.specs.Declaration as tree;
ghost use Rattle.yr_syntax.specs.Declaration.{bytes_of};

use crate::cursor::Cursor;
use crate::fault::Fault;
use crate::lexeme::Lexeme;
use crate::many::many;
use crate::sign::Sign;
use std::alloc::Global;
use yr_syntax::{Infix, Modifier};

#[tactic(auto, unfolding(crate::specs::Ruling::xor_range))]
fn xor_range(tokens: &mut Cursor<'_>, low: i64) -> Result<Modifier, Fault>
    ensures { Gives tree.modifier_of (ruling.xor_range low tokens.old) result tokens.new }
{
    let high = tokens.number()?;
    tokens.expect(Sign::Close)?;
    Ok(Modifier::Xor { low, high })
}

#[tactic(auto, unfolding(crate::specs::Ruling::xor_one))]
fn xor_one(tokens: &mut Cursor<'_>, key: i64) -> Result<Modifier, Fault>
    ensures { Gives tree.modifier_of (ruling.xor_one key tokens.old) result tokens.new }
{
    tokens.expect(Sign::Close)?;
    Ok(Modifier::Xor {
        low: key,
        high: key,
    })
}

#[tactic(auto, unfolding(crate::specs::Ruling::xor_keys))]
fn xor_keys(tokens: &mut Cursor<'_>) -> Result<Modifier, Fault>
    ensures { Gives tree.modifier_of (ruling.xor_keys tokens.old) result tokens.new }
{
    let low = tokens.number()?;
    if !tokens.sees_operator(Infix::Subtract) {
        return xor_one(tokens, low);
    }
    tokens.skip();
    xor_range(tokens, low)
}

#[tactic(auto, unfolding(crate::specs::Ruling::xor_from))]
fn xor(tokens: &mut Cursor<'_>) -> Result<Modifier, Fault>
    ensures { Gives tree.modifier_of (ruling.xor_from tokens.old) result tokens.new }
{
    if !tokens.eat(Sign::Open) {
        return Ok(Modifier::Xor { low: 0, high: 255 });
    }
    xor_keys(tokens)
}

#[tactic(auto, unfolding(crate::specs::Ruling::alphabet_text))]
fn alphabet_text(alloc: Global, tokens: &mut Cursor<'_>) -> Result<Option<Vec<u8>>, Fault>
    ensures { Gives (option_map bytes_of) (ruling.alphabet_text tokens.old) result tokens.new }
{
    let text = tokens.take_text(alloc)?;
    tokens.expect(Sign::Close)?;
    Ok(Some(text))
}

#[tactic(auto, unfolding(crate::specs::Ruling::alphabet_from))]
fn alphabet(alloc: Global, tokens: &mut Cursor<'_>) -> Result<Option<Vec<u8>>, Fault>
    ensures { Gives (option_map bytes_of) (ruling.alphabet_from tokens.old) result tokens.new }
{
    if !tokens.eat(Sign::Open) {
        return Ok(None);
    }
    alphabet_text(alloc, tokens)
}

#[tactic(auto, unfolding(crate::specs::Ruling::next_modifier))]
fn next_modifier(alloc: Global, tokens: &mut Cursor<'_>) -> Result<Option<Modifier>, Fault>
    ensures { Gives (option_map tree.modifier_of) (ruling.next_modifier tokens.old) result tokens.new }
{
    match tokens.peek() {
        Some(Lexeme::Sign(Sign::Xor)) => {
            tokens.skip();
            Ok(Some(xor(tokens)?))
        }
        Some(Lexeme::Sign(Sign::Base64)) => {
            tokens.skip();
            Ok(Some(Modifier::Base64(alphabet(alloc, tokens)?)))
        }
        Some(Lexeme::Sign(Sign::Base64Wide)) => {
            tokens.skip();
            Ok(Some(Modifier::Base64Wide(alphabet(alloc, tokens)?)))
        }
        Some(Lexeme::Sign(sign)) => {
            let word = plain(sign);
            if word.is_some() {
                tokens.skip();
            }
            Ok(word)
        }
        _ => Ok(None),
    }
}

/// A modifier of one word.
fn plain(sign: Sign) -> Option<Modifier>
    ensures { option_map tree.modifier_of result ≡ ruling.plain_modifier sign }
{
    match sign {
        Sign::NoCase => Some(Modifier::NoCase),
        Sign::Wide => Some(Modifier::Wide),
        Sign::Ascii => Some(Modifier::Ascii),
        Sign::FullWord => Some(Modifier::FullWord),
        Sign::Private => Some(Modifier::Hidden),
        _ => None,
    }
}

pub fn modifiers(alloc: Global, tokens: &mut Cursor<'_>) -> Result<Vec<Modifier>, Fault>
    ensures { Gives (λ v. map tree.modifier_of v.items) (many ruling.next_modifier (length tokens.old) tokens.old) result tokens.new }
{
    many(alloc, tokens, |t: &mut Cursor<'_>| next_modifier(alloc, t))
}
