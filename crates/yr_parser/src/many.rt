//! A list whose items are read one by one.

ghost use Rattle.std.specs.Prelude.{◌≡◌, ◌∷◌, IfOk, length};
ghost use Rattle.yr_parser.specs.Many.{Ran, Runs, items_in};

use crate::cursor::Cursor;
use crate::fault::Fault;
use std::alloc::Global;
use yr_base::NoMemory;

/// The items that `next` reads, until it reads none.
pub fn many<T: Drop, O: Fn(&mut Cursor<'_>) -> Result<Option<T>, Fault>>(
    alloc: Global,
    tokens: &mut Cursor<'_>,
    next: O,
) -> Result<Vec<T>, Fault>
    requires { Runs (O.pre next) }
    ensures { Ran (O.post next) (length tokens.old) tokens.old (items_in result) tokens.new }
{
    let mut found = Vec::new(alloc);
    // Each item takes a terminal at least, so that there are no more of them than terminals are left.
    for _turn in 0..tokens.left() {
        let Some(item) = next(tokens)? else {
            return Ok(found);
        };
        found.push(item)?;
    }
    Ok(found)
}

/// The list with one item more at its front.
pub fn with_first<T: Drop>(first: T, rest: Vec<T>) -> Result<Vec<T>, NoMemory>
    ensures { IfOk result (λ v. v.items ≡ first ∷ rest.items) }
{
    let mut items = rest;
    items.insert(0, first)?;
    Ok(items)
}
