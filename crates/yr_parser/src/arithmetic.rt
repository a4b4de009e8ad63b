//! The levels of operators below a test.

ghost use Rattle.std.specs.Prelude.{◌≡◌, ◌∷◌, [], map, length, option_map};
ghost use Rattle.yr_parser.specs.Input.{Gives, many};
ghost use Rattle.yr_parser.specs.Nests.{Nests};
ghost use Rattle.yr_parser.specs.Reading as reading;
ghost use Rattle.yr_syntax.specs.Condition as tree;
ghost use Rattle.yr_syntax.specs.Declaration.{bytes_of};

use crate::cursor::Cursor;
use crate::fault::Fault;
use crate::grammar::Grammar;
use crate::level::{Entry, Level};
use crate::lexeme::Lexeme;
use crate::links::{links, next_link};
use crate::making;
use crate::sign::Sign;
use std::alloc::Global;
use yr_syntax::{Cond, RegexText};

impl<F: Fn(Global, &mut Cursor<'_>, usize, Entry) -> Result<Cond, Fault>> Grammar<F> {
    #[tactic(auto, unfolding(crate::specs::Reading::prod_from, crate::specs::Reading::level_from))]
    pub fn prod_from(&self, tokens: &mut Cursor<'_>, first: Cond) -> Result<Cond, Fault>
        requires { Nests self.now.depth (F.pre self.now.inner) (F.post self.now.inner) }
        ensures { Gives tree.tree_of (reading.prod_from (reading.cond_at self.now.depth) (tree.tree_of first) tokens.old) result tokens.new }
    {
        let rest = links(
            self.alloc,
            tokens,
            Level::Prod,
            self.depth,
            |t: &mut Cursor<'_>| { self.unary(t) },
        )?;
        Ok(making::chain(self.alloc, first, rest)?)
    }

    #[tactic(auto, unfolding(crate::specs::Reading::read_prod))]
    pub fn prod(&self, tokens: &mut Cursor<'_>) -> Result<Cond, Fault>
        requires { Nests self.now.depth (F.pre self.now.inner) (F.post self.now.inner) }
        ensures { Gives tree.tree_of (reading.read_prod (reading.cond_at self.now.depth) tokens.old) result tokens.new }
    {
        let first = self.unary(tokens)?;
        self.prod_from(tokens, first)
    }

    #[tactic(auto, unfolding(crate::specs::Reading::sum_from, crate::specs::Reading::level_from))]
    pub fn sum_from(&self, tokens: &mut Cursor<'_>, first: Cond) -> Result<Cond, Fault>
        requires { Nests self.now.depth (F.pre self.now.inner) (F.post self.now.inner) }
        ensures { Gives tree.tree_of (reading.sum_from (reading.cond_at self.now.depth) (tree.tree_of first) tokens.old) result tokens.new }
    {
        let first = self.prod_from(tokens, first)?;
        let rest = links(
            self.alloc,
            tokens,
            Level::Sum,
            self.depth,
            |t: &mut Cursor<'_>| { self.prod(t) },
        )?;
        Ok(making::chain(self.alloc, first, rest)?)
    }

    #[tactic(auto, unfolding(crate::specs::Reading::read_sum))]
    pub fn sum(&self, tokens: &mut Cursor<'_>) -> Result<Cond, Fault>
        requires { Nests self.now.depth (F.pre self.now.inner) (F.post self.now.inner) }
        ensures { Gives tree.tree_of (reading.read_sum (reading.cond_at self.now.depth) tokens.old) result tokens.new }
    {
        let first = self.unary(tokens)?;
        self.sum_from(tokens, first)
    }

    #[tactic(auto, unfolding(crate::specs::Reading::shift_from, crate::specs::Reading::level_from))]
    pub fn shift_from(&self, tokens: &mut Cursor<'_>, first: Cond) -> Result<Cond, Fault>
        requires { Nests self.now.depth (F.pre self.now.inner) (F.post self.now.inner) }
        ensures { Gives tree.tree_of (reading.shift_from (reading.cond_at self.now.depth) (tree.tree_of first) tokens.old) result tokens.new }
    {
        let first = self.sum_from(tokens, first)?;
        let rest = links(
            self.alloc,
            tokens,
            Level::Shift,
            self.depth,
            |t: &mut Cursor<'_>| { self.sum(t) },
        )?;
        Ok(making::chain(self.alloc, first, rest)?)
    }

    #[tactic(auto, unfolding(crate::specs::Reading::read_shift))]
    pub fn shift(&self, tokens: &mut Cursor<'_>) -> Result<Cond, Fault>
        requires { Nests self.now.depth (F.pre self.now.inner) (F.post self.now.inner) }
        ensures { Gives tree.tree_of (reading.read_shift (reading.cond_at self.now.depth) tokens.old) result tokens.new }
    {
        let first = self.unary(tokens)?;
        self.shift_from(tokens, first)
    }

    #[tactic(auto, unfolding(crate::specs::Reading::band_from, crate::specs::Reading::level_from))]
    pub fn band_from(&self, tokens: &mut Cursor<'_>, first: Cond) -> Result<Cond, Fault>
        requires { Nests self.now.depth (F.pre self.now.inner) (F.post self.now.inner) }
        ensures { Gives tree.tree_of (reading.band_from (reading.cond_at self.now.depth) (tree.tree_of first) tokens.old) result tokens.new }
    {
        let first = self.shift_from(tokens, first)?;
        let rest = links(
            self.alloc,
            tokens,
            Level::Band,
            self.depth,
            |t: &mut Cursor<'_>| { self.shift(t) },
        )?;
        Ok(making::chain(self.alloc, first, rest)?)
    }

    #[tactic(auto, unfolding(crate::specs::Reading::read_band))]
    pub fn band(&self, tokens: &mut Cursor<'_>) -> Result<Cond, Fault>
        requires { Nests self.now.depth (F.pre self.now.inner) (F.post self.now.inner) }
        ensures { Gives tree.tree_of (reading.read_band (reading.cond_at self.now.depth) tokens.old) result tokens.new }
    {
        let first = self.unary(tokens)?;
        self.band_from(tokens, first)
    }

    #[tactic(auto, unfolding(crate::specs::Reading::bxor_from, crate::specs::Reading::level_from))]
    pub fn bxor_from(&self, tokens: &mut Cursor<'_>, first: Cond) -> Result<Cond, Fault>
        requires { Nests self.now.depth (F.pre self.now.inner) (F.post self.now.inner) }
        ensures { Gives tree.tree_of (reading.bxor_from (reading.cond_at self.now.depth) (tree.tree_of first) tokens.old) result tokens.new }
    {
        let first = self.band_from(tokens, first)?;
        let rest = links(
            self.alloc,
            tokens,
            Level::Bxor,
            self.depth,
            |t: &mut Cursor<'_>| { self.band(t) },
        )?;
        Ok(making::chain(self.alloc, first, rest)?)
    }

    #[tactic(auto, unfolding(crate::specs::Reading::read_bxor))]
    pub fn bxor(&self, tokens: &mut Cursor<'_>) -> Result<Cond, Fault>
        requires { Nests self.now.depth (F.pre self.now.inner) (F.post self.now.inner) }
        ensures { Gives tree.tree_of (reading.read_bxor (reading.cond_at self.now.depth) tokens.old) result tokens.new }
    {
        let first = self.unary(tokens)?;
        self.bxor_from(tokens, first)
    }

    #[tactic(auto, unfolding(crate::specs::Reading::bits_from, crate::specs::Reading::level_from))]
    pub fn bits_from(&self, tokens: &mut Cursor<'_>, first: Cond) -> Result<Cond, Fault>
        requires { Nests self.now.depth (F.pre self.now.inner) (F.post self.now.inner) }
        ensures { Gives tree.tree_of (reading.bits_from (reading.cond_at self.now.depth) (tree.tree_of first) tokens.old) result tokens.new }
    {
        let first = self.bxor_from(tokens, first)?;
        let rest = links(
            self.alloc,
            tokens,
            Level::Bits,
            self.depth,
            |t: &mut Cursor<'_>| { self.bxor(t) },
        )?;
        Ok(making::chain(self.alloc, first, rest)?)
    }

    #[tactic(auto, unfolding(crate::specs::Reading::read_bits))]
    pub fn bits(&self, tokens: &mut Cursor<'_>) -> Result<Cond, Fault>
        requires { Nests self.now.depth (F.pre self.now.inner) (F.post self.now.inner) }
        ensures { Gives tree.tree_of (reading.read_bits (reading.cond_at self.now.depth) tokens.old) result tokens.new }
    {
        let first = self.unary(tokens)?;
        self.bits_from(tokens, first)
    }

    #[tactic(auto, unfolding(crate::specs::Reading::rel_from, crate::specs::Reading::pair_from))]
    pub fn rel_from(&self, tokens: &mut Cursor<'_>, first: Cond) -> Result<Cond, Fault>
        requires { Nests self.now.depth (F.pre self.now.inner) (F.post self.now.inner) }
        ensures { Gives tree.tree_of (reading.rel_from (reading.cond_at self.now.depth) (tree.tree_of first) tokens.old) result tokens.new }
    {
        let first = self.bits_from(tokens, first)?;
        let link = next_link(
            tokens,
            Level::Rel,
            self.depth,
            |t: &mut Cursor<'_>| self.bits(t),
        )?;
        Ok(making::pair(self.alloc, first, link)?)
    }

    #[tactic(auto, unfolding(crate::specs::Reading::read_rel))]
    pub fn rel(&self, tokens: &mut Cursor<'_>) -> Result<Cond, Fault>
        requires { Nests self.now.depth (F.pre self.now.inner) (F.post self.now.inner) }
        ensures { Gives tree.tree_of (reading.read_rel (reading.cond_at self.now.depth) tokens.old) result tokens.new }
    {
        let first = self.unary(tokens)?;
        self.rel_from(tokens, first)
    }

    /// The rest of a comparison, after its first operand.
    #[tactic(auto, unfolding(crate::specs::Reading::equal_rest, crate::specs::Reading::pair_from))]
    fn equal_rest(&self, tokens: &mut Cursor<'_>, first: Cond) -> Result<Cond, Fault>
        requires { Nests self.now.depth (F.pre self.now.inner) (F.post self.now.inner) }
        ensures { Gives tree.tree_of (reading.equal_rest (reading.cond_at self.now.depth) (tree.tree_of first) tokens.old) result tokens.new }
    {
        if tokens.eat(Sign::Matches) {
            return matches_from(self.alloc, tokens, first);
        }
        let link = next_link(
            tokens,
            Level::Equal,
            self.depth,
            |t: &mut Cursor<'_>| self.rel(t),
        )?;
        Ok(making::pair(self.alloc, first, link)?)
    }

    #[tactic(auto, unfolding(crate::specs::Reading::equal_from))]
    pub fn equal_from(&self, tokens: &mut Cursor<'_>, first: Cond) -> Result<Cond, Fault>
        requires { Nests self.now.depth (F.pre self.now.inner) (F.post self.now.inner) }
        ensures { Gives tree.tree_of (reading.equal_from (reading.cond_at self.now.depth) (tree.tree_of first) tokens.old) result tokens.new }
    {
        let first = self.rel_from(tokens, first)?;
        self.equal_rest(tokens, first)
    }
}

#[tactic(auto, unfolding(crate::specs::Reading::matches_from, crate::specs::Reading::regex_at))]
fn matches_from(alloc: Global, tokens: &mut Cursor<'_>, first: Cond) -> Result<Cond, Fault>
    ensures { Gives tree.tree_of (reading.matches_from (tree.tree_of first) tokens.old) result tokens.new }
{
    match tokens.peek() {
        Some(
            Lexeme::Regex {
                text,
                nocase,
                dot_all,
            },
        ) => {
            let text = Vec::from_slice(alloc, text)?;
            tokens.skip();
            let regex = RegexText {
                text,
                nocase,
                dot_all,
            };
            Ok(making::matches(alloc, first, regex)?)
        }
        _ => Err(Fault::Syntax),
    }
}
