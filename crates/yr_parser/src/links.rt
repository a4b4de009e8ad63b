//! The operators of a level, each with its right operand.

ghost use Rattle.std.specs.Prelude.{◌≡◌, map, length, option_map};
ghost use Rattle.yr_parser.specs.Input.{Gives, many};
ghost use Rattle.yr_parser.specs.Nests.{Parses};
ghost use Rattle.yr_parser.specs.Reading as reading;
ghost use Rattle.yr_syntax.specs.Condition as tree;

use crate::cursor::Cursor;
use crate::fault::Fault;
use crate::level::Level;
use crate::making;
use crate::many::many;
use std::alloc::Global;
use yr_syntax::{Cond, Link};

/// An operator of the level with its operand, if one comes next.
#[tactic(auto, unfolding(crate::specs::Reading::next_link))]
pub fn next_link<O: Fn(&mut Cursor<'_>) -> Result<Cond, Fault>>(
    tokens: &mut Cursor<'_>,
    level: Level,
    depth: usize,
    operand: O,
) -> Result<Option<Link>, Fault>
    requires { Parses (reading.operand_at depth level) (O.pre operand) (O.post operand) }
    ensures { Gives (option_map tree.link_of) (reading.next_link level (reading.operand_at depth level) tokens.old) result tokens.new }
{
    let Some(op) = tokens.joins(level) else {
        return Ok(None);
    };
    tokens.skip();
    let operand = operand(tokens)?;
    Ok(Some(making::link(op, operand)))
}

/// All operators of the level that follow one another.
pub fn links<O: Fn(&mut Cursor<'_>) -> Result<Cond, Fault>>(
    alloc: Global,
    tokens: &mut Cursor<'_>,
    level: Level,
    depth: usize,
    operand: O,
) -> Result<Vec<Link>, Fault>
    requires { Parses (reading.operand_at depth level) (O.pre operand) (O.post operand) }
    ensures { Gives (λ v. map tree.link_of v.items) (many (reading.next_link level (reading.operand_at depth level)) (length tokens.old) tokens.old) result tokens.new }
{
    many(
        alloc,
        tokens,
        |t: &mut Cursor<'_>| -> Result<Option<Link>, Fault>
            requires { Parses (reading.operand_at depth level) (O.pre operand) (O.post operand) }
            ensures { Gives (option_map tree.link_of) (reading.next_link level (reading.operand_at depth level) t.old) result t.new }
        { next_link(t, level, depth, |u: &mut Cursor<'_>| operand(u)) },
    )
}
