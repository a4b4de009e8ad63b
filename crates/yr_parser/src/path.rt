//! What stands between brackets: ranges, items and the parts of a path.

ghost use Rattle.std.specs.Prelude.{◌≡◌, ◌∷◌, [], map, length, option_map};
ghost use Rattle.yr_parser.specs.Input.{Gives, many};
ghost use Rattle.yr_parser.specs.Nests.{Nests};
ghost use Rattle.yr_parser.specs.Reading as reading;
ghost use Rattle.yr_syntax.specs.Condition as tree;
ghost use Rattle.yr_syntax.specs.Declaration.{bytes_of};

use crate::cursor::Cursor;
use crate::fault::Fault;
use crate::grammar::Grammar;
use crate::level::Entry;
use crate::making;
use crate::many::{many, with_first};
use crate::sign::Sign;
use std::alloc::Global;
use yr_syntax::{Cond, PathStep, Range};

impl<F: Fn(Global, &mut Cursor<'_>, usize, Entry) -> Result<Cond, Fault>> Grammar<F> {
    /// A condition or a number, and the sign that closes it.
    #[tactic(auto, unfolding(crate::specs::Reading::read_closed))]
    pub fn closed(&self, tokens: &mut Cursor<'_>, entry: Entry, sign: Sign) -> Result<Cond, Fault>
        requires { Nests self.now.depth (F.pre self.now.inner) (F.post self.now.inner) }
        ensures { Gives tree.tree_of (reading.read_closed (reading.cond_at self.now.depth) entry sign tokens.old) result tokens.new }
    {
        let inner = (self.inner)(self.alloc, tokens, self.depth, entry)?;
        tokens.expect(sign)?;
        Ok(inner)
    }

    #[tactic(auto, unfolding(crate::specs::Reading::range_from))]
    pub fn range_from(&self, tokens: &mut Cursor<'_>, low: Cond) -> Result<Range, Fault>
        requires { Nests self.now.depth (F.pre self.now.inner) (F.post self.now.inner) }
        ensures { Gives tree.bounds_of (reading.range_from (reading.cond_at self.now.depth) (tree.tree_of low) tokens.old) result tokens.new }
    {
        let high = self.closed(tokens, Entry::Bits, Sign::Close)?;
        Ok(making::range(self.alloc, low, high)?)
    }

    #[tactic(auto, unfolding(crate::specs::Reading::read_range))]
    pub fn range(&self, tokens: &mut Cursor<'_>) -> Result<Range, Fault>
        requires { Nests self.now.depth (F.pre self.now.inner) (F.post self.now.inner) }
        ensures { Gives tree.bounds_of (reading.read_range (reading.cond_at self.now.depth) tokens.old) result tokens.new }
    {
        tokens.expect(Sign::Open)?;
        let low = self.closed(tokens, Entry::Bits, Sign::DotDot)?;
        self.range_from(tokens, low)
    }

    #[tactic(auto, unfolding(crate::specs::Reading::next_item))]
    fn next_item(&self, tokens: &mut Cursor<'_>) -> Result<Option<Cond>, Fault>
        requires { Nests self.now.depth (F.pre self.now.inner) (F.post self.now.inner) }
        ensures { Gives (option_map tree.tree_of) (reading.next_item (reading.cond_at self.now.depth) tokens.old) result tokens.new }
    {
        if !tokens.eat(Sign::Comma) {
            return Ok(None);
        }
        let item = (self.inner)(self.alloc, tokens, self.depth, Entry::Bits)?;
        Ok(Some(item))
    }

    fn more_items(&self, tokens: &mut Cursor<'_>) -> Result<Vec<Cond>, Fault>
        requires { Nests self.now.depth (F.pre self.now.inner) (F.post self.now.inner) }
        ensures { Gives (λ v. map tree.tree_of v.items) (many (reading.next_item (reading.cond_at self.now.depth)) (length tokens.old) tokens.old) result tokens.new }
    {
        many(self.alloc, tokens, |t: &mut Cursor<'_>| self.next_item(t))
    }

    /// The items after the first, and the bracket.
    #[tactic(auto, unfolding(crate::specs::Reading::items_from))]
    pub fn items_from(&self, tokens: &mut Cursor<'_>, first: Cond) -> Result<Vec<Cond>, Fault>
        requires { Nests self.now.depth (F.pre self.now.inner) (F.post self.now.inner) }
        ensures { Gives (λ v. map tree.tree_of v.items) (reading.items_from (reading.cond_at self.now.depth) (tree.tree_of first) tokens.old) result tokens.new }
    {
        let more = self.more_items(tokens)?;
        tokens.expect(Sign::Close)?;
        Ok(with_first(first, more)?)
    }

    #[tactic(auto, unfolding(crate::specs::Reading::read_items))]
    fn items(&self, tokens: &mut Cursor<'_>) -> Result<Vec<Cond>, Fault>
        requires { Nests self.now.depth (F.pre self.now.inner) (F.post self.now.inner) }
        ensures { Gives (λ v. map tree.tree_of v.items) (reading.read_items (reading.cond_at self.now.depth) tokens.old) result tokens.new }
    {
        let first = (self.inner)(self.alloc, tokens, self.depth, Entry::Bits)?;
        self.items_from(tokens, first)
    }

    #[tactic(auto, unfolding(crate::specs::Reading::read_call))]
    fn call(&self, tokens: &mut Cursor<'_>) -> Result<Option<PathStep>, Fault>
        requires { Nests self.now.depth (F.pre self.now.inner) (F.post self.now.inner) }
        ensures { Gives (option_map tree.step_of) (reading.read_call (reading.cond_at self.now.depth) tokens.old) result tokens.new }
    {
        if tokens.eat(Sign::Close) {
            return Ok(Some(making::call_step(Vec::new(self.alloc))));
        }
        let arguments = self.items(tokens)?;
        Ok(Some(making::call_step(arguments)))
    }

    #[tactic(auto, unfolding(crate::specs::Reading::read_index))]
    fn index(&self, tokens: &mut Cursor<'_>) -> Result<Option<PathStep>, Fault>
        requires { Nests self.now.depth (F.pre self.now.inner) (F.post self.now.inner) }
        ensures { Gives (option_map tree.step_of) (reading.read_index (reading.cond_at self.now.depth) tokens.old) result tokens.new }
    {
        let index = self.closed(tokens, Entry::Bits, Sign::CloseBracket)?;
        Ok(Some(making::index_step(index)))
    }

    #[tactic(auto, unfolding(crate::specs::Reading::read_field))]
    fn field(&self, tokens: &mut Cursor<'_>) -> Result<Option<PathStep>, Fault>
        requires { Nests self.now.depth (F.pre self.now.inner) (F.post self.now.inner) }
        ensures { Gives (option_map tree.step_of) (reading.read_field (reading.cond_at self.now.depth) tokens.old) result tokens.new }
    {
        let name = tokens.word(self.alloc)?;
        Ok(Some(making::name_step(name)))
    }

    #[tactic(auto, unfolding(crate::specs::Reading::step_other))]
    fn step_other(&self, tokens: &mut Cursor<'_>) -> Result<Option<PathStep>, Fault>
        requires { Nests self.now.depth (F.pre self.now.inner) (F.post self.now.inner) }
        ensures { Gives (option_map tree.step_of) (reading.step_other (reading.cond_at self.now.depth) tokens.old) result tokens.new }
    {
        if !tokens.eat(Sign::Open) {
            return Ok(None);
        }
        self.call(tokens)
    }

    #[tactic(auto, unfolding(crate::specs::Reading::step_index))]
    fn step_index(&self, tokens: &mut Cursor<'_>) -> Result<Option<PathStep>, Fault>
        requires { Nests self.now.depth (F.pre self.now.inner) (F.post self.now.inner) }
        ensures { Gives (option_map tree.step_of) (reading.step_index (reading.cond_at self.now.depth) tokens.old) result tokens.new }
    {
        if tokens.eat(Sign::OpenBracket) {
            return self.index(tokens);
        }
        self.step_other(tokens)
    }

    #[tactic(auto, unfolding(crate::specs::Reading::next_step))]
    fn next_step(&self, tokens: &mut Cursor<'_>) -> Result<Option<PathStep>, Fault>
        requires { Nests self.now.depth (F.pre self.now.inner) (F.post self.now.inner) }
        ensures { Gives (option_map tree.step_of) (reading.next_step (reading.cond_at self.now.depth) tokens.old) result tokens.new }
    {
        if tokens.eat(Sign::Dot) {
            return self.field(tokens);
        }
        self.step_index(tokens)
    }

    fn more_steps(&self, tokens: &mut Cursor<'_>) -> Result<Vec<PathStep>, Fault>
        requires { Nests self.now.depth (F.pre self.now.inner) (F.post self.now.inner) }
        ensures { Gives (λ v. map tree.step_of v.items) (many (reading.next_step (reading.cond_at self.now.depth)) (length tokens.old) tokens.old) result tokens.new }
    {
        many(self.alloc, tokens, |t: &mut Cursor<'_>| self.next_step(t))
    }

    /// A path, after its first name.
    #[tactic(auto, unfolding(crate::specs::Reading::path_from))]
    pub fn path_from(&self, tokens: &mut Cursor<'_>, name: Vec<u8>) -> Result<Vec<PathStep>, Fault>
        requires { Nests self.now.depth (F.pre self.now.inner) (F.post self.now.inner) }
        ensures { Gives (λ v. map tree.step_of v.items) (reading.path_from (reading.cond_at self.now.depth) name.items tokens.old) result tokens.new }
    {
        let more = self.more_steps(tokens)?;
        Ok(with_first(making::name_step(name), more)?)
    }
}
