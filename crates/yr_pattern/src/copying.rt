//! Copies of patterns.

ghost use Rattle.std.specs.Prelude.{◌≡◌, map, IfOk};
ghost use Rattle.yr_pattern.specs.Tree.{tree_of};

use crate::pattern::Pattern;
use std::alloc::Global;
use yr_base::NoMemory;

/// A pattern with the same tree.
#[cycle(copy)]
pub fn copy(alloc: Global, p: &Pattern) -> Result<Pattern, NoMemory>
    ensures { IfOk result (λ q. tree_of q ≡ tree_of p.now) }
{
    match p {
        Pattern::Empty => Ok(Pattern::Empty),
        Pattern::One(set) => Ok(Pattern::One(*set)),
        Pattern::Seq(members) => {
            let all = copy_each(alloc, members)?;
            Ok(Pattern::Seq(all))
        }
        Pattern::Alt(branches) => {
            let all = copy_each(alloc, branches)?;
            Ok(Pattern::Alt(all))
        }
        Pattern::Rep { inner, min, max } => {
            let one = copy(alloc, inner)?;
            let inner = Box::new(alloc, one)?;
            Ok(Pattern::Rep {
                inner,
                min: *min,
                max: *max,
            })
        }
        Pattern::Start => Ok(Pattern::Start),
        Pattern::End => Ok(Pattern::End),
        Pattern::Edge => Ok(Pattern::Edge),
        Pattern::NotEdge => Ok(Pattern::NotEdge),
        Pattern::WideEdge => Ok(Pattern::WideEdge),
        Pattern::WideNotEdge => Ok(Pattern::WideNotEdge),
    }
}

/// Patterns with the same trees.
#[cycle(copy)]
pub fn copy_each(alloc: Global, patterns: &[Pattern]) -> Result<Vec<Pattern>, NoMemory>
    ensures { IfOk result (λ all. map tree_of all.items ≡ map tree_of patterns.now) }
{
    let mut all = Vec::new(alloc);
    for p in patterns {
        let one = copy(alloc, p)?;
        all.push(one)?;
    }
    Ok(all)
}
