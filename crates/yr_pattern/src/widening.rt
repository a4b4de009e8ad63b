//! Patterns for text of two bytes a letter.

ghost use Rattle.std.specs.Prelude.{◌≡◌, map, IfOk};
ghost use Rattle.yr_pattern.specs.Tree.{tree_of};
ghost use Rattle.yr_pattern.specs.Set.{bytes_of};
ghost use Rattle.yr_pattern.specs.Tree.{One};
ghost use Rattle.yr_pattern.specs.Widen.{widen_tree};

use crate::byte_set::ByteSet;
use crate::pattern::Pattern;
use std::alloc::Global;
use yr_base::NoMemory;

/// The pattern with a byte 00 after each byte, and wide edges for its edges.
#[cycle(widen)]
pub fn widen(alloc: Global, p: &Pattern) -> Result<Pattern, NoMemory>
    ensures { IfOk result (λ q. tree_of q ≡ widen_tree (tree_of p.now)) }
{
    match p {
        Pattern::Empty => Ok(Pattern::Empty),
        Pattern::One(set) => before_zero(alloc, set),
        Pattern::Seq(members) => {
            let all = widen_each(alloc, members)?;
            Ok(Pattern::Seq(all))
        }
        Pattern::Alt(branches) => {
            let all = widen_each(alloc, branches)?;
            Ok(Pattern::Alt(all))
        }
        Pattern::Rep { inner, min, max } => {
            let one = widen(alloc, inner)?;
            let inner = Box::new(alloc, one)?;
            Ok(Pattern::Rep {
                inner,
                min: *min,
                max: *max,
            })
        }
        Pattern::Start => Ok(Pattern::Start),
        Pattern::End => Ok(Pattern::End),
        Pattern::Edge => Ok(Pattern::WideEdge),
        Pattern::NotEdge => Ok(Pattern::WideNotEdge),
        Pattern::WideEdge => Ok(Pattern::WideEdge),
        Pattern::WideNotEdge => Ok(Pattern::WideNotEdge),
    }
}

/// Each pattern, widened.
#[cycle(widen)]
fn widen_each(alloc: Global, patterns: &[Pattern]) -> Result<Vec<Pattern>, NoMemory>
    ensures { IfOk result (λ all. map tree_of all.items ≡ map widen_tree (map tree_of patterns.now)) }
{
    let mut all = Vec::new(alloc);
    for p in patterns {
        let one = widen(alloc, p)?;
        all.push(one)?;
    }
    Ok(all)
}

/// A byte of the set, and then the byte 00.
fn before_zero(alloc: Global, set: &ByteSet) -> Result<Pattern, NoMemory>
    ensures { IfOk result (λ q. tree_of q ≡ widen_tree (One (bytes_of set.now))) }
{
    let mut both = Vec::new(alloc);
    both.push(Pattern::One(*set))?;
    both.push(Pattern::One(ByteSet::one(0)))?;
    Ok(Pattern::Seq(both))
}
