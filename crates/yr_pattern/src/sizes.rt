//! Sizes of patterns.

ghost use Rattle.std.specs.Prelude.{◌≡◌, ◌-◌, ◌^◌, map, min};
ghost use Rattle.yr_pattern.specs.Tree.{tree_of, trees_of};
ghost use Rattle.yr_pattern.specs.Sizes.{size_of, sizes_of};

use crate::pattern::Pattern;

/// The number of moves that a program needs for a pattern, or the greatest number where it would pass that.
#[cycle(size)]
pub fn size(p: &Pattern) -> u64
    ensures { result ≡ min (size_of (tree_of p.now)) (2 ^ 64 - 1) }
{
    match p {
        Pattern::Empty => 0,
        Pattern::Seq(members) => sum_of_sizes(members),
        Pattern::Alt(branches) => {
            if branches.is_empty() {
                1
            } else {
                sum_of_sizes(branches).saturating_add(branches.len() as u64 - 1)
            }
        }
        Pattern::Rep { inner, min, max } => {
            let one = size(inner);
            match max {
                None => (u64::from(*min) + 1).saturating_mul(one).saturating_add(1),
                Some(max) => {
                    if max < min {
                        1
                    } else {
                        u64::from(*max)
                            .saturating_mul(one)
                            .saturating_add(u64::from(max - min))
                    }
                }
            }
        }
        _ => 1,
    }
}

/// The sum of their sizes, or the greatest number where it would pass that.
#[cycle(size)]
pub fn sum_of_sizes(patterns: &[Pattern]) -> u64
    ensures { result ≡ min (sizes_of (trees_of (map tree_of patterns.now))) (2 ^ 64 - 1) }
{
    let mut total: u64 = 0;
    for i in (0..patterns.len()).rev() {
        total = total.saturating_add(size(&patterns[i]));
    }
    total
}
