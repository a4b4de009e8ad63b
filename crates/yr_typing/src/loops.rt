//! The open loops of a checked condition.

ghost use Rattle.std.specs.Prelude.{◌≡◌, ◌-◌, ◌^◌, length, min};
ghost use Rattle.std.specs.Option.{option_map};
ghost use Rattle.yr_rules.specs.Loops.{loop_at};
ghost use Rattle.yr_typing.specs.Open.{loop_of, open_of};

/// What a loop's turns stand at.
#[derive(Clone, Copy, Debug, PartialEq, Eq)]
pub enum Loop {
    Members,
    Numbers,
    Entries,
}

/// The open loops, from the innermost out.
#[derive(Clone, Copy)]
pub enum Loops<'a> {
    None,
    Inside(Loop, &'a Loops<'a>),
}

/// How many loops are open, as far as 64 bits tell, and the one with a number.
pub fn find(loops: &Loops<'_>, number: u32) -> (u64, Option<Loop>)
    ensures count { result.0 ≡ min (length (open_of loops.now)) (2 ^ 64 - 1) }
    ensures found { option_map loop_of result.1 ≡ loop_at number (open_of loops.now) }
{
    match loops {
        Loops::None => (0, None),
        Loops::Inside(innermost, outer) => {
            let (count, found) = find(outer, number);
            if count == u64::from(number) {
                (count.saturating_add(1), Some(*innermost))
            } else {
                (count.saturating_add(1), found)
            }
        }
    }
}

/// The open loop with a number, the outermost being 0.
pub fn open_loop(loops: &Loops<'_>, number: u32) -> Option<Loop>
    ensures { option_map loop_of result ≡ loop_at number (open_of loops.now) }
{
    let (_, found) = find(loops, number);
    found
}
