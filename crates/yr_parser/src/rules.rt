//! Rules and imports.

ghost use Rattle.std.specs.Prelude.{◌≡◌, ◌∷◌, [], map, length, option_map};
ghost use Rattle.yr_parser.specs.Input.{Gives, many};
ghost use Rattle.yr_parser.specs.Ruling as ruling;
ghost use Rattle.yr_syntax.specs.Declaration as tree;
ghost use Rattle.yr_syntax.specs.Declaration.{bytes_of};
ghost use Rattle.yr_parser.specs.Spelling.{places_of};
ghost use Rattle.yr_syntax.specs.Condition as condition;

use crate::cursor::Cursor;
use crate::fault::Fault;
use crate::level::Entry;
use crate::lexeme::Lexeme;
use crate::many::{many, with_first};
use crate::metadata::meta;
use crate::place::{file_at, line_at};
use crate::reading::condition_at;
use crate::sign::Sign;
use crate::strings::strings;
use std::alloc::Global;
use yr_lexer::Tokens;
use yr_syntax::{Cond, Decl, Rule};

/// How many brackets may be open, and one.
const DEPTH: usize = 65;

/// `global` and `private`.
#[derive(Clone, Copy)]
struct Flags {
    global: bool,
    hidden: bool,
}

#[tactic(auto, unfolding(crate::specs::Ruling::next_word, crate::specs::Ruling::sees_word))]
fn next_tag(alloc: Global, tokens: &mut Cursor<'_>) -> Result<Option<Vec<u8>>, Fault>
    ensures { Gives (option_map bytes_of) (ruling.next_word tokens.old) result tokens.new }
{
    match tokens.peek() {
        Some(Lexeme::Word(_)) => {
            let word = tokens.word(alloc)?;
            Ok(Some(word))
        }
        _ => Ok(None),
    }
}

fn more_tags(alloc: Global, tokens: &mut Cursor<'_>) -> Result<Vec<Vec<u8>>, Fault>
    ensures { Gives (λ v. map bytes_of v.items) (many ruling.next_word (length tokens.old) tokens.old) result tokens.new }
{
    many(alloc, tokens, |t: &mut Cursor<'_>| next_tag(alloc, t))
}

#[tactic(auto, unfolding(crate::specs::Ruling::tags_from))]
fn tags_from(alloc: Global, tokens: &mut Cursor<'_>) -> Result<Vec<Vec<u8>>, Fault>
    ensures { Gives (λ v. map bytes_of v.items) (ruling.tags_from tokens.old) result tokens.new }
{
    let first = tokens.word(alloc)?;
    let more = more_tags(alloc, tokens)?;
    Ok(with_first(first, more)?)
}

#[tactic(auto, unfolding(crate::specs::Ruling::read_tags))]
fn tags(alloc: Global, tokens: &mut Cursor<'_>) -> Result<Vec<Vec<u8>>, Fault>
    ensures { Gives (λ v. map bytes_of v.items) (ruling.read_tags tokens.old) result tokens.new }
{
    if !tokens.eat(Sign::Colon) {
        return Ok(Vec::new(alloc));
    }
    tags_from(alloc, tokens)
}

#[tactic(auto, unfolding(crate::specs::Ruling::hidden_flags))]
fn hidden_flags(tokens: &mut Cursor<'_>) -> Result<Flags, Fault>
    ensures { Gives (λ f. (f.global, f.hidden)) (ruling.hidden_flags tokens.old) result tokens.new }
{
    let global = tokens.eat(Sign::Global);
    Ok(Flags {
        global,
        hidden: true,
    })
}

#[tactic(auto, unfolding(crate::specs::Ruling::private_flags))]
fn private_flags(tokens: &mut Cursor<'_>) -> Result<Flags, Fault>
    ensures { Gives (λ f. (f.global, f.hidden)) (ruling.private_flags tokens.old) result tokens.new }
{
    if tokens.eat(Sign::Private) {
        return hidden_flags(tokens);
    }
    Ok(Flags {
        global: false,
        hidden: false,
    })
}

#[tactic(auto, unfolding(crate::specs::Ruling::global_flags))]
fn global_flags(tokens: &mut Cursor<'_>) -> Result<Flags, Fault>
    ensures { Gives (λ f. (f.global, f.hidden)) (ruling.global_flags tokens.old) result tokens.new }
{
    let hidden = tokens.eat(Sign::Private);
    Ok(Flags {
        global: true,
        hidden,
    })
}

#[tactic(auto, unfolding(crate::specs::Ruling::read_flags))]
fn rule_flags(tokens: &mut Cursor<'_>) -> Result<Flags, Fault>
    ensures { Gives (λ f. (f.global, f.hidden)) (ruling.read_flags tokens.old) result tokens.new }
{
    if tokens.eat(Sign::Global) {
        return global_flags(tokens);
    }
    private_flags(tokens)
}

#[tactic(auto, unfolding(crate::specs::Ruling::rule_condition))]
fn condition(alloc: Global, all: &Tokens, tokens: &mut Cursor<'_>) -> Result<Cond, Fault>
    ensures { Gives condition.tree_of (ruling.rule_condition (places_of all.now) 65 tokens.old) result tokens.new }
{
    tokens.expect(Sign::Condition)?;
    tokens.expect(Sign::Colon)?;
    let condition = condition_at(alloc, tokens, DEPTH, Entry::Or)?;
    tokens.expect(Sign::CloseBrace)?;
    Ok(condition)
}

#[tactic(auto, unfolding(crate::specs::Ruling::rule_from))]
fn rule_from(
    alloc: Global,
    all: &Tokens,
    tokens: &mut Cursor<'_>,
    file: u32,
    line: u32,
    flags: Flags,
) -> Result<Rule, Fault>
    ensures { Gives tree.rule_of (ruling.rule_from (places_of all.now) 65 file line (flags.global, flags.hidden) tokens.old) result tokens.new }
{
    tokens.expect(Sign::Rule)?;
    let name = tokens.word(alloc)?;
    let tags = tags(alloc, tokens)?;
    tokens.expect(Sign::OpenBrace)?;
    let meta = meta(alloc, tokens)?;
    let strings = strings(alloc, all, tokens)?;
    let condition = condition(alloc, all, tokens)?;
    Ok(Rule {
        name,
        global: flags.global,
        hidden: flags.hidden,
        tags,
        meta,
        strings,
        condition,
        file,
        line,
    })
}

#[tactic(auto, unfolding(crate::specs::Ruling::read_rule))]
fn rule(alloc: Global, all: &Tokens, tokens: &mut Cursor<'_>) -> Result<Rule, Fault>
    ensures { Gives tree.rule_of (ruling.read_rule (places_of all.now) 65 tokens.old) result tokens.new }
{
    let file = file_at(all, tokens.left());
    let line = line_at(all, tokens.left());
    let flags = rule_flags(tokens)?;
    rule_from(alloc, all, tokens, file, line, flags)
}

#[tactic(auto, unfolding(crate::specs::Ruling::import_from))]
fn import_from(
    alloc: Global,
    all: &Tokens,
    tokens: &mut Cursor<'_>,
    file: u32,
    line: u32,
) -> Result<Decl, Fault>
    ensures { Gives tree.declaration_of (ruling.import_from (places_of all.now) file line tokens.old) result tokens.new }
{
    let module = tokens.take_text(alloc)?;
    Ok(Decl::Import { module, file, line })
}

#[tactic(auto, unfolding(crate::specs::Ruling::read_declaration))]
pub fn read(alloc: Global, all: &Tokens, tokens: &mut Cursor<'_>) -> Result<Decl, Fault>
    ensures { Gives tree.declaration_of (ruling.read_declaration (places_of all.now) 65 tokens.old) result tokens.new }
{
    if !tokens.sees(Sign::Import) {
        let rule = rule(alloc, all, tokens)?;
        return Ok(Decl::Rule(rule));
    }
    let file = file_at(all, tokens.left());
    let line = line_at(all, tokens.left());
    tokens.skip();
    import_from(alloc, all, tokens, file, line)
}
