//! The `strings` part of a rule.

ghost use Rattle.std.specs.Prelude.{◌≡◌, ◌∷◌, [], map, length, option_map};
ghost use Rattle.yr_parser.specs.Input.{Gives, many};
ghost use Rattle.yr_parser.specs.Ruling as ruling;
ghost use Rattle.yr_syntax.specs.Declaration as tree;
ghost use Rattle.yr_syntax.specs.Declaration.{bytes_of};
ghost use Rattle.yr_parser.specs.Spelling.{places_of};

use crate::cursor::Cursor;
use crate::fault::Fault;
use crate::lexeme::Lexeme;
use crate::many::{many, with_first};
use crate::modifiers::modifiers;
use crate::place::line_at;
use crate::sign::Sign;
use std::alloc::Global;
use yr_lexer::Tokens;
use yr_syntax::{RegexText, StringBody, StringDecl};

#[tactic(auto, unfolding(crate::specs::Ruling::read_body_text))]
fn body(alloc: Global, tokens: &mut Cursor<'_>) -> Result<StringBody, Fault>
    ensures { Gives tree.body_of (ruling.read_body_text tokens.old) result tokens.new }
{
    match tokens.peek() {
        Some(Lexeme::Text(_)) => {
            let text = tokens.text(alloc)?;
            tokens.skip();
            Ok(StringBody::Text(text))
        }
        Some(
            Lexeme::Regex {
                text,
                nocase,
                dot_all,
            },
        ) => {
            let text = Vec::from_slice(alloc, text)?;
            tokens.skip();
            Ok(StringBody::Regex(RegexText {
                text,
                nocase,
                dot_all,
            }))
        }
        Some(Lexeme::Hex(text)) => {
            let text = Vec::from_slice(alloc, text)?;
            tokens.skip();
            Ok(StringBody::Hex(text))
        }
        _ => Err(Fault::Syntax),
    }
}

/// A string, after its name.
#[tactic(auto, unfolding(crate::specs::Ruling::string_from))]
fn string_from(
    alloc: Global,
    all: &Tokens,
    tokens: &mut Cursor<'_>,
    line: u32,
    name: Vec<u8>,
) -> Result<StringDecl, Fault>
    ensures { Gives tree.string_of (ruling.string_from (places_of all.now) line name.items tokens.old) result tokens.new }
{
    tokens.expect(Sign::Assign)?;
    let body = body(alloc, tokens)?;
    let modifiers = modifiers(alloc, tokens)?;
    Ok(StringDecl {
        name,
        body,
        modifiers,
        line,
    })
}

#[tactic(auto, unfolding(crate::specs::Ruling::read_string, crate::specs::Reading::string_at))]
fn string(alloc: Global, all: &Tokens, tokens: &mut Cursor<'_>) -> Result<StringDecl, Fault>
    ensures { Gives tree.string_of (ruling.read_string (places_of all.now) tokens.old) result tokens.new }
{
    match tokens.peek() {
        Some(Lexeme::StringName(name)) => {
            let line = line_at(all, tokens.left());
            let name = Vec::from_slice(alloc, name)?;
            tokens.skip();
            string_from(alloc, all, tokens, line, name)
        }
        _ => Err(Fault::Syntax),
    }
}

#[tactic(auto, unfolding(crate::specs::Ruling::next_string, crate::specs::Reading::string_at))]
fn next_string(
    alloc: Global,
    all: &Tokens,
    tokens: &mut Cursor<'_>,
) -> Result<Option<StringDecl>, Fault>
    ensures { Gives (option_map tree.string_of) (ruling.next_string (places_of all.now) tokens.old) result tokens.new }
{
    match tokens.peek() {
        Some(Lexeme::StringName(_)) => {
            let string = string(alloc, all, tokens)?;
            Ok(Some(string))
        }
        _ => Ok(None),
    }
}

fn more_strings(
    alloc: Global,
    all: &Tokens,
    tokens: &mut Cursor<'_>,
) -> Result<Vec<StringDecl>, Fault>
    ensures { Gives (λ v. map tree.string_of v.items) (many (ruling.next_string (places_of all.now)) (length tokens.old) tokens.old) result tokens.new }
{
    many(
        alloc,
        tokens,
        |t: &mut Cursor<'_>| next_string(alloc, all, t),
    )
}

#[tactic(auto, unfolding(crate::specs::Ruling::strings_from))]
fn listed(alloc: Global, all: &Tokens, tokens: &mut Cursor<'_>) -> Result<Vec<StringDecl>, Fault>
    ensures { Gives (λ v. map tree.string_of v.items) (ruling.strings_from (places_of all.now) tokens.old) result tokens.new }
{
    tokens.expect(Sign::Colon)?;
    let first = string(alloc, all, tokens)?;
    let more = more_strings(alloc, all, tokens)?;
    Ok(with_first(first, more)?)
}

#[tactic(auto, unfolding(crate::specs::Ruling::string_part))]
pub fn strings(
    alloc: Global,
    all: &Tokens,
    tokens: &mut Cursor<'_>,
) -> Result<Vec<StringDecl>, Fault>
    ensures { Gives (λ v. map tree.string_of v.items) (ruling.string_part (places_of all.now) tokens.old) result tokens.new }
{
    if !tokens.eat(Sign::Strings) {
        return Ok(Vec::new(alloc));
    }
    listed(alloc, all, tokens)
}
