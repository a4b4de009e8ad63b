//! The primaries of a condition.

ghost use Rattle.std.specs.Prelude.{◌≡◌, ◌∷◌, [], map, length, option_map};
ghost use Rattle.yr_parser.specs.Input.{Gives, many};
ghost use Rattle.yr_parser.specs.Nests.{Nests};
ghost use Rattle.yr_parser.specs.Reading as reading;
ghost use Rattle.yr_syntax.specs.Condition as tree;
ghost use Rattle.yr_syntax.specs.Declaration.{bytes_of};

use crate::cursor::Cursor;
use crate::fault::Fault;
use crate::grammar::Grammar;
use crate::level::Entry;
use crate::lexeme::Lexeme;
use crate::making;
use crate::prefix::{prefixed, prefixes};
use crate::sign::Sign;
use std::alloc::Global;
use yr_syntax::{Cond, Reader};

impl<F: Fn(Global, &mut Cursor<'_>, usize, Entry) -> Result<Cond, Fault>> Grammar<F> {
    #[tactic(auto, unfolding(crate::specs::Reading::read_reader))]
    fn reader(&self, tokens: &mut Cursor<'_>, reader: Reader) -> Result<Cond, Fault>
        requires { Nests self.now.depth (F.pre self.now.inner) (F.post self.now.inner) }
        ensures { Gives tree.tree_of (reading.read_reader (reading.cond_at self.now.depth) reader tokens.old) result tokens.new }
    {
        tokens.expect(Sign::Open)?;
        let at = self.closed(tokens, Entry::Bits, Sign::Close)?;
        Ok(making::read(self.alloc, reader, at)?)
    }

    #[tactic(auto, unfolding(crate::specs::Reading::count_from))]
    fn count_from(&self, tokens: &mut Cursor<'_>, name: Vec<u8>) -> Result<Cond, Fault>
        requires { Nests self.now.depth (F.pre self.now.inner) (F.post self.now.inner) }
        ensures { Gives tree.tree_of (reading.count_from (reading.cond_at self.now.depth) name.items tokens.old) result tokens.new }
    {
        if !tokens.eat(Sign::In) {
            return Ok(making::count(name, None));
        }
        let range = self.range(tokens)?;
        Ok(making::count(name, Some(range)))
    }

    #[tactic(auto, unfolding(crate::specs::Reading::offset_from))]
    fn offset_from(&self, tokens: &mut Cursor<'_>, name: Vec<u8>) -> Result<Cond, Fault>
        requires { Nests self.now.depth (F.pre self.now.inner) (F.post self.now.inner) }
        ensures { Gives tree.tree_of (reading.offset_from (reading.cond_at self.now.depth) name.items tokens.old) result tokens.new }
    {
        if !tokens.eat(Sign::OpenBracket) {
            return Ok(making::offset(name));
        }
        let index = self.closed(tokens, Entry::Bits, Sign::CloseBracket)?;
        Ok(making::offset_at(self.alloc, name, index)?)
    }

    #[tactic(auto, unfolding(crate::specs::Reading::length_from))]
    fn length_from(&self, tokens: &mut Cursor<'_>, name: Vec<u8>) -> Result<Cond, Fault>
        requires { Nests self.now.depth (F.pre self.now.inner) (F.post self.now.inner) }
        ensures { Gives tree.tree_of (reading.length_from (reading.cond_at self.now.depth) name.items tokens.old) result tokens.new }
    {
        if !tokens.eat(Sign::OpenBracket) {
            return Ok(making::length(name));
        }
        let index = self.closed(tokens, Entry::Bits, Sign::CloseBracket)?;
        Ok(making::length_at(self.alloc, name, index)?)
    }

    #[tactic(auto, unfolding(crate::specs::Reading::read_path))]
    fn path(&self, tokens: &mut Cursor<'_>, name: Vec<u8>) -> Result<Cond, Fault>
        requires { Nests self.now.depth (F.pre self.now.inner) (F.post self.now.inner) }
        ensures { Gives tree.tree_of (reading.read_path (reading.cond_at self.now.depth) name.items tokens.old) result tokens.new }
    {
        let steps = self.path_from(tokens, name)?;
        Ok(making::path(steps))
    }

    /// `filesize`, or brackets.
    #[tactic(auto, unfolding(crate::specs::Reading::primary_sign))]
    fn primary_sign(&self, tokens: &mut Cursor<'_>) -> Result<Cond, Fault>
        requires { Nests self.now.depth (F.pre self.now.inner) (F.post self.now.inner) }
        ensures { Gives tree.tree_of (reading.primary_sign (reading.cond_at self.now.depth) tokens.old) result tokens.new }
    {
        if tokens.eat(Sign::FileSize) {
            return Ok(making::file_size());
        }
        tokens.expect(Sign::Open)?;
        self.closed(tokens, Entry::Or, Sign::Close)
    }

    #[tactic(auto, unfolding(crate::specs::Reading::read_primary))]
    pub fn primary(&self, tokens: &mut Cursor<'_>) -> Result<Cond, Fault>
        requires { Nests self.now.depth (F.pre self.now.inner) (F.post self.now.inner) }
        ensures { Gives tree.tree_of (reading.read_primary (reading.cond_at self.now.depth) tokens.old) result tokens.new }
    {
        match tokens.peek() {
            Some(Lexeme::Number(value)) => {
                tokens.skip();
                Ok(making::number(value))
            }
            Some(Lexeme::Text(_)) => {
                let text = tokens.text(self.alloc)?;
                tokens.skip();
                Ok(making::text(text))
            }
            Some(Lexeme::Flag(value)) => {
                tokens.skip();
                Ok(making::flag(value))
            }
            Some(Lexeme::Read(reader)) => {
                tokens.skip();
                self.reader(tokens, reader)
            }
            Some(Lexeme::Sign(_)) => self.primary_sign(tokens),
            _ => self.primary_name(tokens),
        }
    }

    /// A primary that begins with a name.
    #[tactic(auto, unfolding(crate::specs::Reading::primary_name))]
    fn primary_name(&self, tokens: &mut Cursor<'_>) -> Result<Cond, Fault>
        requires { Nests self.now.depth (F.pre self.now.inner) (F.post self.now.inner) }
        ensures { Gives tree.tree_of (reading.primary_name (reading.cond_at self.now.depth) tokens.old) result tokens.new }
    {
        match tokens.peek() {
            Some(Lexeme::Word(name)) => {
                let name = Vec::from_slice(self.alloc, name)?;
                tokens.skip();
                self.path(tokens, name)
            }
            Some(Lexeme::CountName(name)) => {
                let name = Vec::from_slice(self.alloc, name)?;
                tokens.skip();
                self.count_from(tokens, name)
            }
            Some(Lexeme::PlaceName(name)) => {
                let name = Vec::from_slice(self.alloc, name)?;
                tokens.skip();
                self.offset_from(tokens, name)
            }
            Some(Lexeme::LengthName(name)) => {
                let name = Vec::from_slice(self.alloc, name)?;
                tokens.skip();
                self.length_from(tokens, name)
            }
            _ => Err(Fault::Syntax),
        }
    }

    #[tactic(auto, using(crate::proofs::Steps::unary_run))]
    pub fn unary(&self, tokens: &mut Cursor<'_>) -> Result<Cond, Fault>
        requires { Nests self.now.depth (F.pre self.now.inner) (F.post self.now.inner) }
        ensures { Gives tree.tree_of (reading.read_unary (reading.cond_at self.now.depth) tokens.old) result tokens.new }
    {
        let ops = prefixes(self.alloc, tokens)?;
        let operand = self.primary(tokens)?;
        Ok(prefixed(self.alloc, ops, operand)?)
    }
}
