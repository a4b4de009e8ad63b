//! Conditions between brackets.

ghost use Rattle.std.specs.Prelude.{◌≡◌};
ghost use Rattle.yr_parser.specs.Input.{Gives};
ghost use Rattle.yr_parser.specs.Reading as reading;
ghost use Rattle.yr_syntax.specs.Condition as tree;

use crate::cursor::Cursor;
use crate::fault::Fault;
use crate::grammar::Grammar;
use crate::level::Entry;
use std::alloc::Global;
use yr_syntax::Cond;

/// A condition or a number, with brackets nested less deep than the number.
pub fn condition_at(
    alloc: Global,
    tokens: &mut Cursor<'_>,
    depth: usize,
    entry: Entry,
) -> Result<Cond, Fault>
    ensures { Gives tree.tree_of (reading.cond_at depth entry tokens.old) result tokens.new }
{
    if depth == 0 {
        return Err(Fault::Syntax);
    }
    let grammar = Grammar {
        alloc,
        depth: depth - 1,
        inner: condition_at,
    };
    match entry {
        Entry::Or => grammar.or(tokens),
        Entry::Bits => grammar.bits(tokens),
    }
}
