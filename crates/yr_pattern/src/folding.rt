//! Patterns without regard to letter case.

ghost use Rattle.std.specs.Prelude.{◌≡◌, map, IfOk};
ghost use Rattle.yr_pattern.specs.Tree.{tree_of};
ghost use Rattle.yr_pattern.specs.Fold.{fold_tree};

use crate::pattern::Pattern;
use std::alloc::Global;
use yr_base::NoMemory;

/// The pattern with each of its sets closed under ASCII letter case.
#[cycle(fold)]
pub fn fold(alloc: Global, p: &Pattern) -> Result<Pattern, NoMemory>
    ensures { IfOk result (λ q. tree_of q ≡ fold_tree (tree_of p.now)) }
{
    match p {
        Pattern::Empty => Ok(Pattern::Empty),
        Pattern::One(set) => Ok(Pattern::One(set.fold())),
        Pattern::Seq(members) => {
            let all = fold_each(alloc, members)?;
            Ok(Pattern::Seq(all))
        }
        Pattern::Alt(branches) => {
            let all = fold_each(alloc, branches)?;
            Ok(Pattern::Alt(all))
        }
        Pattern::Rep { inner, min, max } => {
            let one = fold(alloc, inner)?;
            let inner = Box::new(alloc, one)?;
            Ok(Pattern::Rep {
                inner,
                min: *min,
                max: *max,
            })
        }
        Pattern::Start => Ok(Pattern::Start),
        Pattern::End => Ok(Pattern::End),
        Pattern::Edge => Ok(Pattern::Edge),
        Pattern::NotEdge => Ok(Pattern::NotEdge),
        Pattern::WideEdge => Ok(Pattern::WideEdge),
        Pattern::WideNotEdge => Ok(Pattern::WideNotEdge),
    }
}

/// Each pattern, closed under ASCII letter case.
#[cycle(fold)]
fn fold_each(alloc: Global, patterns: &[Pattern]) -> Result<Vec<Pattern>, NoMemory>
    ensures { IfOk result (λ all. map tree_of all.items ≡ map fold_tree (map tree_of patterns.now)) }
{
    let mut all = Vec::new(alloc);
    for p in patterns {
        let one = fold(alloc, p)?;
        all.push(one)?;
    }
    Ok(all)
}
