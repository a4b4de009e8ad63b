//! Names that stand twice.

ghost use Rattle.std.specs.Prelude.{◌≡◌, IfOk};
ghost use Rattle.std.specs.Option.{option_map};
ghost use Rattle.yr_name_tables.specs.Names as spec;

use crate::name::Name;
use crate::table::Table;
use std::alloc::{AllocError, Global};

/// Of the names that stand twice, the one whose first place comes first: they are looked at from the last to the first.
pub fn first_twice<'a>(alloc: Global, all: &[Name<'a>]) -> Result<Option<&'a [u8]>, AllocError>
    ensures { IfOk result (λ o. option_map (λ n. n.now) o ≡ spec.first_twice all.now) }
{
    let mut later = Table::new(alloc);
    let mut found = None;
    let mut left = all.len();
    while left > 0 {
        left -= 1;
        let name = all[left].bytes();
        if later.has(name) {
            found = Some(name);
        }
        later.add(name)?;
    }
    Ok(found)
}
