//! Patterns without their parts that have no move.

ghost use Rattle.std.specs.Prelude.{◌≡◌, ◌<◌, ◌≤◌, map, option_map, IfOk, Some, None};
ghost use Rattle.std.specs.List.{flat_map};
ghost use Rattle.yr_pattern.specs.Tree.{Rep, tree_of, trees_of};
ghost use Rattle.yr_program.specs.Kept as spec;
ghost use Rattle.yr_program.specs.Kept.{kept, kept_list, kept_branch, in_order, or_empty};

use std::alloc::Global;
use yr_base::NoMemory;
use yr_pattern::Pattern;

/// The pattern without its parts that have no move. The program is the same, and a copy of a part takes no longer to
/// emit than its moves.
pub fn without_empty_parts(alloc: Global, p: &Pattern) -> Result<Pattern, NoMemory>
    ensures { IfOk result (λ left. tree_of left ≡ or_empty (kept (tree_of p.now))) }
{
    let left = keep(alloc, p)?;
    Ok(or_nothing(left))
}

/// The same, or nothing where the pattern has no move at all.
#[cycle(keep)]
fn keep(alloc: Global, p: &Pattern) -> Result<Option<Pattern>, NoMemory>
    ensures { IfOk result (λ left. option_map tree_of left ≡ kept (tree_of p.now)) }
{
    match p {
        Pattern::Empty => Ok(None),
        Pattern::One(set) => Ok(Some(Pattern::One(*set))),
        Pattern::Seq(members) => {
            let all = keep_all(alloc, members)?;
            Ok(one_after_another(all))
        }
        Pattern::Alt(branches) => {
            let all = keep_each(alloc, branches)?;
            Ok(Some(Pattern::Alt(all)))
        }
        Pattern::Rep { inner, min, max } => keep_rep(alloc, inner, *min, *max),
        Pattern::Start => Ok(Some(Pattern::Start)),
        Pattern::End => Ok(Some(Pattern::End)),
        Pattern::Edge => Ok(Some(Pattern::Edge)),
        Pattern::NotEdge => Ok(Some(Pattern::NotEdge)),
        Pattern::WideEdge => Ok(Some(Pattern::WideEdge)),
        Pattern::WideNotEdge => Ok(Some(Pattern::WideNotEdge)),
    }
}

/// The members that have moves.
#[cycle(keep)]
fn keep_all(alloc: Global, members: &[Pattern]) -> Result<Vec<Pattern>, NoMemory>
    ensures { IfOk result (λ all. map tree_of all.items ≡ flat_map (λ p. kept_list (tree_of p)) members.now) }
{
    let mut all = Vec::new(alloc);
    for member in members {
        if let Some(one) = keep(alloc, member)? {
            all.push(one)?;
        }
    }
    Ok(all)
}

/// Each branch. One without a move stays, as the empty pattern.
#[cycle(keep)]
fn keep_each(alloc: Global, branches: &[Pattern]) -> Result<Vec<Pattern>, NoMemory>
    ensures { IfOk result (λ all. map tree_of all.items ≡ map kept_branch (map tree_of branches.now)) }
{
    let mut all = Vec::new(alloc);
    for branch in branches {
        let left = keep(alloc, branch)?;
        all.push(or_nothing(left))?;
    }
    Ok(all)
}

#[cycle(keep)]
fn keep_rep(
    alloc: Global,
    inner: &Pattern,
    min: u32,
    max: Option<u32>,
) -> Result<Option<Pattern>, NoMemory>
    ensures { IfOk result (λ left. option_map tree_of left ≡ spec.repeated (kept (tree_of inner.now)) min max) }
{
    match max {
        None => {
            let left = keep(alloc, inner)?;
            repeated(alloc, left, min, None)
        }
        Some(max) if max < min => repeated(alloc, None, min, Some(max)),
        Some(0) => Ok(None),
        Some(max) => {
            let left = keep(alloc, inner)?;
            at_most(alloc, left, min, max)
        }
    }
}

fn or_nothing(left: Option<Pattern>) -> Pattern
    ensures { tree_of result ≡ or_empty (option_map tree_of left) }
{
    match left {
        None => Pattern::Empty,
        Some(one) => one,
    }
}

fn one_after_another(mut all: Vec<Pattern>) -> Option<Pattern>
    ensures { option_map tree_of result ≡ in_order (trees_of (map tree_of all.items)) }
{
    if all.len() > 1 {
        return Some(Pattern::Seq(all));
    }
    all.pop()
}

fn repeated(
    alloc: Global,
    left: Option<Pattern>,
    min: u32,
    max: Option<u32>,
) -> Result<Option<Pattern>, NoMemory>
    ensures { IfOk result (λ whole. option_map tree_of whole ≡ Some (Rep (or_empty (option_map tree_of left)) min max)) }
{
    let inner = Box::new(alloc, or_nothing(left))?;
    Ok(Some(Pattern::Rep { inner, min, max }))
}

fn at_most(
    alloc: Global,
    left: Option<Pattern>,
    min: u32,
    max: u32,
) -> Result<Option<Pattern>, NoMemory>
    requires ordered { min ≤ max }
    requires some { 0 < max }
    ensures { IfOk result (λ whole. option_map tree_of whole ≡ spec.at_most (option_map tree_of left) min max) }
{
    if min < max {
        return repeated(alloc, left, min, Some(max));
    }
    match left {
        None => Ok(None),
        Some(one) if max == 1 => Ok(Some(one)),
        Some(one) => repeated(alloc, Some(one), max, Some(max)),
    }
}
