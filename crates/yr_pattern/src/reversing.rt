//! Patterns turned round.

ghost use Rattle.std.specs.Prelude.{◌≡◌, map, IfOk};
ghost use Rattle.yr_pattern.specs.Tree.{tree_of};
ghost use Rattle.yr_pattern.specs.Reverse.{reverse_tree};

use crate::pattern::Pattern;
use std::alloc::Global;
use yr_base::NoMemory;

/// The pattern that, read downwards, spans the places that this one spans.
#[cycle(reverse)]
pub fn reverse(alloc: Global, p: &Pattern) -> Result<Pattern, NoMemory>
    ensures { IfOk result (λ q. tree_of q ≡ reverse_tree (tree_of p.now)) }
{
    match p {
        Pattern::Empty => Ok(Pattern::Empty),
        Pattern::One(set) => Ok(Pattern::One(*set)),
        Pattern::Seq(members) => {
            let mut all = reverse_each(alloc, members)?;
            all.reverse();
            Ok(Pattern::Seq(all))
        }
        Pattern::Alt(branches) => {
            let all = reverse_each(alloc, branches)?;
            Ok(Pattern::Alt(all))
        }
        Pattern::Rep { inner, min, max } => {
            let one = reverse(alloc, inner)?;
            let inner = Box::new(alloc, one)?;
            Ok(Pattern::Rep {
                inner,
                min: *min,
                max: *max,
            })
        }
        Pattern::Start => Ok(Pattern::Start),
        Pattern::End => Ok(Pattern::End),
        Pattern::Edge => Ok(Pattern::Edge),
        Pattern::NotEdge => Ok(Pattern::NotEdge),
        Pattern::WideEdge => Ok(Pattern::WideEdge),
        Pattern::WideNotEdge => Ok(Pattern::WideNotEdge),
    }
}

/// Each pattern turned round, in the order in which they stand.
#[cycle(reverse)]
fn reverse_each(alloc: Global, patterns: &[Pattern]) -> Result<Vec<Pattern>, NoMemory>
    ensures { IfOk result (λ all. map tree_of all.items ≡ map reverse_tree (map tree_of patterns.now)) }
{
    let mut all = Vec::new(alloc);
    for p in patterns {
        let one = reverse(alloc, p)?;
        all.push(one)?;
    }
    Ok(all)
}
