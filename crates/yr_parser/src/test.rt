//! Tests: strings, `of`, `for` and comparisons.

ghost use Rattle.std.specs.Prelude.{◌≡◌, option_map};
ghost use Rattle.yr_parser.specs.Input.{Gives};
ghost use Rattle.yr_parser.specs.Nests.{Nests};
ghost use Rattle.yr_parser.specs.Reading as reading;
ghost use Rattle.yr_syntax.specs.Condition as tree;
ghost use Rattle.yr_syntax.specs.Declaration.{bytes_of};

use crate::cursor::Cursor;
use crate::fault::Fault;
use crate::grammar::Grammar;
use crate::level::{Entry, Level};
use crate::lexeme::Lexeme;
use crate::links::links;
use crate::making;
use crate::prefix::{negations, prefixed};
use crate::sets::set;
use crate::sign::Sign;
use std::alloc::Global;
use yr_syntax::{Cond, Over, Place, Quant};

impl<F: Fn(Global, &mut Cursor<'_>, usize, Entry) -> Result<Cond, Fault>> Grammar<F> {
    #[tactic(auto, unfolding(crate::specs::Reading::place_at))]
    fn place_at(&self, tokens: &mut Cursor<'_>) -> Result<Place, Fault>
        requires { Nests self.now.depth (F.pre self.now.inner) (F.post self.now.inner) }
        ensures { Gives tree.where_of (reading.place_at (reading.cond_at self.now.depth) tokens.old) result tokens.new }
    {
        let place = self.bits(tokens)?;
        Ok(making::at(self.alloc, place)?)
    }

    #[tactic(auto, unfolding(crate::specs::Reading::place_in))]
    fn place_in(&self, tokens: &mut Cursor<'_>) -> Result<Place, Fault>
        requires { Nests self.now.depth (F.pre self.now.inner) (F.post self.now.inner) }
        ensures { Gives tree.where_of (reading.place_in (reading.cond_at self.now.depth) tokens.old) result tokens.new }
    {
        if !tokens.eat(Sign::In) {
            return Ok(making::anywhere());
        }
        let range = self.range(tokens)?;
        Ok(making::within(range))
    }

    #[tactic(auto, unfolding(crate::specs::Reading::read_place))]
    fn place(&self, tokens: &mut Cursor<'_>) -> Result<Place, Fault>
        requires { Nests self.now.depth (F.pre self.now.inner) (F.post self.now.inner) }
        ensures { Gives tree.where_of (reading.read_place (reading.cond_at self.now.depth) tokens.old) result tokens.new }
    {
        if tokens.eat(Sign::At) {
            return self.place_at(tokens);
        }
        self.place_in(tokens)
    }

    #[tactic(auto, unfolding(crate::specs::Reading::found_from))]
    fn found_from(&self, tokens: &mut Cursor<'_>, name: Vec<u8>) -> Result<Cond, Fault>
        requires { Nests self.now.depth (F.pre self.now.inner) (F.post self.now.inner) }
        ensures { Gives tree.tree_of (reading.found_from (reading.cond_at self.now.depth) name.items tokens.old) result tokens.new }
    {
        let place = self.place(tokens)?;
        Ok(making::found(name, place))
    }

    #[tactic(auto, unfolding(crate::specs::Reading::of_from))]
    fn of_from(&self, tokens: &mut Cursor<'_>, quant: Quant) -> Result<Cond, Fault>
        requires { Nests self.now.depth (F.pre self.now.inner) (F.post self.now.inner) }
        ensures { Gives tree.tree_of (reading.of_from (reading.cond_at self.now.depth) (tree.asked_of quant) tokens.old) result tokens.new }
    {
        let set = set(self.alloc, tokens)?;
        let place = self.place(tokens)?;
        Ok(making::of(quant, set, place))
    }

    #[tactic(auto, unfolding(crate::specs::Reading::read_count))]
    fn count(&self, tokens: &mut Cursor<'_>) -> Result<Quant, Fault>
        requires { Nests self.now.depth (F.pre self.now.inner) (F.post self.now.inner) }
        ensures { Gives tree.asked_of (reading.read_count (reading.cond_at self.now.depth) tokens.old) result tokens.new }
    {
        if let Some(quant) = count_word(tokens) {
            tokens.skip();
            return Ok(quant);
        }
        let count = self.unary(tokens)?;
        Ok(making::at_least(self.alloc, count)?)
    }

    /// The body of a loop.
    #[tactic(auto, unfolding(crate::specs::Reading::read_body))]
    fn body(&self, tokens: &mut Cursor<'_>) -> Result<Cond, Fault>
        requires { Nests self.now.depth (F.pre self.now.inner) (F.post self.now.inner) }
        ensures { Gives tree.tree_of (reading.read_body (reading.cond_at self.now.depth) tokens.old) result tokens.new }
    {
        tokens.expect(Sign::Colon)?;
        tokens.expect(Sign::Open)?;
        self.closed(tokens, Entry::Or, Sign::Close)
    }

    #[tactic(auto, unfolding(crate::specs::Reading::over_from))]
    fn over_from(&self, tokens: &mut Cursor<'_>, first: Cond) -> Result<Over, Fault>
        requires { Nests self.now.depth (F.pre self.now.inner) (F.post self.now.inner) }
        ensures { Gives tree.domain_of (reading.over_from (reading.cond_at self.now.depth) (tree.tree_of first) tokens.old) result tokens.new }
    {
        if tokens.eat(Sign::DotDot) {
            let range = self.range_from(tokens, first)?;
            return Ok(making::over_range(range));
        }
        let items = self.items_from(tokens, first)?;
        Ok(making::over_list(items))
    }

    #[tactic(auto, unfolding(crate::specs::Reading::over_path))]
    fn over_path(&self, tokens: &mut Cursor<'_>) -> Result<Over, Fault>
        requires { Nests self.now.depth (F.pre self.now.inner) (F.post self.now.inner) }
        ensures { Gives tree.domain_of (reading.over_path (reading.cond_at self.now.depth) tokens.old) result tokens.new }
    {
        let name = tokens.word(self.alloc)?;
        let steps = self.path_from(tokens, name)?;
        Ok(making::over_path(steps))
    }

    #[tactic(auto, unfolding(crate::specs::Reading::over_brackets))]
    fn over_brackets(&self, tokens: &mut Cursor<'_>) -> Result<Over, Fault>
        requires { Nests self.now.depth (F.pre self.now.inner) (F.post self.now.inner) }
        ensures { Gives tree.domain_of (reading.over_brackets (reading.cond_at self.now.depth) tokens.old) result tokens.new }
    {
        let first = (self.inner)(self.alloc, tokens, self.depth, Entry::Bits)?;
        self.over_from(tokens, first)
    }

    #[tactic(auto, unfolding(crate::specs::Reading::read_over))]
    fn over(&self, tokens: &mut Cursor<'_>) -> Result<Over, Fault>
        requires { Nests self.now.depth (F.pre self.now.inner) (F.post self.now.inner) }
        ensures { Gives tree.domain_of (reading.read_over (reading.cond_at self.now.depth) tokens.old) result tokens.new }
    {
        if tokens.eat(Sign::Open) {
            return self.over_brackets(tokens);
        }
        self.over_path(tokens)
    }

    #[tactic(auto, unfolding(crate::specs::Reading::for_of_from))]
    fn for_of_from(&self, tokens: &mut Cursor<'_>, quant: Quant) -> Result<Cond, Fault>
        requires { Nests self.now.depth (F.pre self.now.inner) (F.post self.now.inner) }
        ensures { Gives tree.tree_of (reading.for_of_from (reading.cond_at self.now.depth) (tree.asked_of quant) tokens.old) result tokens.new }
    {
        let set = set(self.alloc, tokens)?;
        let body = self.body(tokens)?;
        Ok(making::for_of(self.alloc, quant, set, body)?)
    }

    #[tactic(auto, unfolding(crate::specs::Reading::for_in_from))]
    fn for_in_from(&self, tokens: &mut Cursor<'_>, quant: Quant) -> Result<Cond, Fault>
        requires { Nests self.now.depth (F.pre self.now.inner) (F.post self.now.inner) }
        ensures { Gives tree.tree_of (reading.for_in_from (reading.cond_at self.now.depth) (tree.asked_of quant) tokens.old) result tokens.new }
    {
        let name = tokens.word(self.alloc)?;
        tokens.expect(Sign::In)?;
        let over = self.over(tokens)?;
        let body = self.body(tokens)?;
        Ok(making::for_in(self.alloc, quant, name, over, body)?)
    }

    #[tactic(auto, unfolding(crate::specs::Reading::read_for))]
    fn for_loop(&self, tokens: &mut Cursor<'_>) -> Result<Cond, Fault>
        requires { Nests self.now.depth (F.pre self.now.inner) (F.post self.now.inner) }
        ensures { Gives tree.tree_of (reading.read_for (reading.cond_at self.now.depth) tokens.old) result tokens.new }
    {
        let quant = self.count(tokens)?;
        if tokens.eat(Sign::Of) {
            return self.for_of_from(tokens, quant);
        }
        self.for_in_from(tokens, quant)
    }

    #[tactic(auto, unfolding(crate::specs::Reading::percent_from))]
    fn percent_from(&self, tokens: &mut Cursor<'_>, first: Cond) -> Result<Cond, Fault>
        requires { Nests self.now.depth (F.pre self.now.inner) (F.post self.now.inner) }
        ensures { Gives tree.tree_of (reading.percent_from (reading.cond_at self.now.depth) (tree.tree_of first) tokens.old) result tokens.new }
    {
        if !tokens.sees_percent_of() {
            return self.equal_from(tokens, first);
        }
        tokens.skip();
        tokens.skip();
        let quant = making::percent(self.alloc, first)?;
        self.of_from(tokens, quant)
    }

    /// The rest of a test, after its first unary.
    #[tactic(auto, unfolding(crate::specs::Reading::test_from))]
    fn test_from(&self, tokens: &mut Cursor<'_>, first: Cond) -> Result<Cond, Fault>
        requires { Nests self.now.depth (F.pre self.now.inner) (F.post self.now.inner) }
        ensures { Gives tree.tree_of (reading.test_from (reading.cond_at self.now.depth) (tree.tree_of first) tokens.old) result tokens.new }
    {
        if !tokens.eat(Sign::Of) {
            return self.percent_from(tokens, first);
        }
        let quant = making::at_least(self.alloc, first)?;
        self.of_from(tokens, quant)
    }

    #[tactic(auto, unfolding(crate::specs::Reading::test_count))]
    fn test_count(&self, tokens: &mut Cursor<'_>) -> Result<Cond, Fault>
        requires { Nests self.now.depth (F.pre self.now.inner) (F.post self.now.inner) }
        ensures { Gives tree.tree_of (reading.test_count (reading.cond_at self.now.depth) tokens.old) result tokens.new }
    {
        let Some(quant) = count_word(tokens) else {
            let first = self.unary(tokens)?;
            return self.test_from(tokens, first);
        };
        tokens.skip();
        tokens.expect(Sign::Of)?;
        self.of_from(tokens, quant)
    }

    #[tactic(auto, unfolding(crate::specs::Reading::test_other))]
    fn test_other(&self, tokens: &mut Cursor<'_>) -> Result<Cond, Fault>
        requires { Nests self.now.depth (F.pre self.now.inner) (F.post self.now.inner) }
        ensures { Gives tree.tree_of (reading.test_other (reading.cond_at self.now.depth) tokens.old) result tokens.new }
    {
        if tokens.eat(Sign::For) {
            return self.for_loop(tokens);
        }
        self.test_count(tokens)
    }

    #[tactic(auto, unfolding(crate::specs::Reading::read_test, crate::specs::Reading::string_at))]
    fn test(&self, tokens: &mut Cursor<'_>) -> Result<Cond, Fault>
        requires { Nests self.now.depth (F.pre self.now.inner) (F.post self.now.inner) }
        ensures { Gives tree.tree_of (reading.read_test (reading.cond_at self.now.depth) tokens.old) result tokens.new }
    {
        match tokens.peek() {
            Some(Lexeme::StringName(name)) => {
                let name = Vec::from_slice(self.alloc, name)?;
                tokens.skip();
                self.found_from(tokens, name)
            }
            _ => self.test_other(tokens),
        }
    }

    #[tactic(auto, using(crate::proofs::Steps::not_run))]
    fn not(&self, tokens: &mut Cursor<'_>) -> Result<Cond, Fault>
        requires { Nests self.now.depth (F.pre self.now.inner) (F.post self.now.inner) }
        ensures { Gives tree.tree_of (reading.read_not (reading.cond_at self.now.depth) tokens.old) result tokens.new }
    {
        let ops = negations(self.alloc, tokens)?;
        let operand = self.test(tokens)?;
        Ok(prefixed(self.alloc, ops, operand)?)
    }

    #[tactic(auto, unfolding(crate::specs::Reading::read_and, crate::specs::Reading::level_from))]
    pub fn and(&self, tokens: &mut Cursor<'_>) -> Result<Cond, Fault>
        requires { Nests self.now.depth (F.pre self.now.inner) (F.post self.now.inner) }
        ensures { Gives tree.tree_of (reading.read_and (reading.cond_at self.now.depth) tokens.old) result tokens.new }
    {
        let first = self.not(tokens)?;
        let rest = links(
            self.alloc,
            tokens,
            Level::And,
            self.depth,
            |t: &mut Cursor<'_>| { self.not(t) },
        )?;
        Ok(making::chain(self.alloc, first, rest)?)
    }

    #[tactic(auto, unfolding(crate::specs::Reading::read_or, crate::specs::Reading::level_from))]
    pub fn or(&self, tokens: &mut Cursor<'_>) -> Result<Cond, Fault>
        requires { Nests self.now.depth (F.pre self.now.inner) (F.post self.now.inner) }
        ensures { Gives tree.tree_of (reading.read_or (reading.cond_at self.now.depth) tokens.old) result tokens.new }
    {
        let first = self.and(tokens)?;
        let rest = links(
            self.alloc,
            tokens,
            Level::Or,
            self.depth,
            |t: &mut Cursor<'_>| { self.and(t) },
        )?;
        Ok(making::chain(self.alloc, first, rest)?)
    }
}

/// The quantifier that comes next, if it is a word.
#[tactic(auto, unfolding(crate::specs::Reading::count_at))]
fn count_word(tokens: &Cursor<'_>) -> Option<Quant>
    ensures { option_map tree.asked_of result ≡ reading.count_at tokens.now }
{
    match tokens.peek() {
        Some(Lexeme::Sign(Sign::All)) => Some(making::all()),
        Some(Lexeme::Sign(Sign::Any)) => Some(making::any()),
        Some(Lexeme::Sign(Sign::None)) => Some(making::nil()),
        _ => None,
    }
}
