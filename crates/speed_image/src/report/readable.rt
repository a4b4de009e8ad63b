//! Match lists that are made by hand.

ghost use Rattle.std.specs.Prelude.{IfOk};
ghost use Rattle.yr_answer.specs.Found.{IsReadable};
ghost use Rattle.yr_report.specs.Made.{AreBelow};

use std::alloc::{AllocError, Global};

// Pushes a match if its offset is not below the least, and returns the next least offset.
fn push_rising(list: &mut Vec<(u32, u32)>, least: u64, found: (u32, u32)) -> Result<u64, AllocError>
    requires readable { IsReadable list.old.items }
    requires below { AreBelow least list.old.items }
    ensures readable { IfOk result (λ next. IsReadable list.new.items) }
    ensures below { IfOk result (λ next. AreBelow next list.new.items) }
{
    let offset = found.0 as u64;
    if offset < least || list.len() >= 1 << 28 {
        return Ok(least);
    }
    list.push(found)?;
    Ok(offset + 1)
}

/// The matches whose offsets rise.
pub fn readable(alloc: Global, matches: &[(u32, u32)]) -> Result<Vec<(u32, u32)>, AllocError>
    ensures { IfOk result (λ list. IsReadable list.items) }
{
    let mut list = Vec::new(alloc);
    let mut least = 0;
    for found in matches {
        least = push_rising(&mut list, least, *found)?;
    }
    Ok(list)
}
