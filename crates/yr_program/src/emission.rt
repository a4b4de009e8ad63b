//! The moves of a pattern, one after another.

ghost use Rattle.std.specs.Prelude.{◌≡◌, ◌+◌, ◌*◌, ◌≤◌, ◌<◌, ◌^◌, [], ◌∷◌, ◌++◌, length, map, OnOk};
ghost use Rattle.yr_pattern.specs.Tree.{tree_of, trees_of};
ghost use Rattle.yr_pattern.specs.Sizes.{size_of, sizes_of, rep_size};
ghost use Rattle.yr_program.specs.Acts.{Ask};
ghost use Rattle.yr_program.specs.Drafts.{acts_of};
ghost use Rattle.yr_program.specs.Code.{any_size, enter, copies, options, rep_code, code_of, code_all, code_any};

use crate::draft::{Draft, DraftMove};
use yr_base::NoMemory;
use yr_pattern::{Pattern, size, sum_of_sizes};
use yr_rows::Assertion;

// Where a part of this size begins, if it stands at `base` and leads on to `next`.
fn entry(size: u64, base: u64, next: u32) -> u32
    requires { base < 2 ^ 32 }
    ensures { result ≡ enter size base next }
{
    if size == 0 { next } else { base as u32 }
}

// A move that tests its place.
fn put_test(draft: &mut Draft, assertion: Assertion, next: u32) -> Result<(), NoMemory>
    ensures { OnOk result (acts_of draft.new ≡ acts_of draft.old ++ Ask assertion next ∷ []) }
{
    draft.put(DraftMove::Test { assertion, next })
}

// The moves of a pattern, from here on; they lead on to `next`.
#[cycle(emit)]
pub fn emit(draft: &mut Draft, p: &Pattern, next: u32) -> Result<(), NoMemory>
    requires { length (acts_of draft.old) + size_of (tree_of p.now) ≤ 65535 }
    ensures { OnOk result (acts_of draft.new ≡ acts_of draft.old ++ code_of (tree_of p.now) (length (acts_of draft.old)) next) }
{
    match p {
        Pattern::Empty => Ok(()),
        Pattern::One(set) => draft.put(DraftMove::Set { next, set: *set }),
        Pattern::Seq(members) => emit_all(draft, members, next),
        Pattern::Alt(branches) => emit_any(draft, branches, next),
        Pattern::Rep { inner, min, max } => emit_rep(draft, inner, *min, *max, next),
        Pattern::Start => put_test(draft, Assertion::Start, next),
        Pattern::End => put_test(draft, Assertion::End, next),
        Pattern::Edge => put_test(draft, Assertion::Edge, next),
        Pattern::NotEdge => put_test(draft, Assertion::NotEdge, next),
        Pattern::WideEdge => put_test(draft, Assertion::WideEdge, next),
        Pattern::WideNotEdge => put_test(draft, Assertion::WideNotEdge, next),
    }
}

#[cycle(emit)]
fn emit_all(draft: &mut Draft, members: &[Pattern], next: u32) -> Result<(), NoMemory>
    requires { length (acts_of draft.old) + sizes_of (trees_of (map tree_of members.now)) ≤ 65535 }
    ensures { OnOk result (acts_of draft.new ≡ acts_of draft.old ++ code_all (trees_of (map tree_of members.now)) (length (acts_of draft.old)) next) }
{
    let mut rest = sum_of_sizes(members);
    for i in 0..members.len() {
        let member = &members[i];
        let one = size(member);
        rest -= one;
        let after = draft.len() + one;
        emit(draft, member, entry(rest, after, next))?;
    }
    Ok(())
}

#[cycle(emit)]
fn emit_any(draft: &mut Draft, branches: &[Pattern], next: u32) -> Result<(), NoMemory>
    requires { length (acts_of draft.old) + any_size (trees_of (map tree_of branches.now)) ≤ 65535 }
    ensures { OnOk result (acts_of draft.new ≡ acts_of draft.old ++ code_any (trees_of (map tree_of branches.now)) (length (acts_of draft.old)) next) }
{
    if branches.is_empty() {
        return draft.put_fail(next);
    }
    let last = branches.len() - 1;
    let mut rest = sum_of_sizes(branches) + last as u64;
    for i in 0..last {
        let branch = &branches[i];
        let one = size(branch);
        rest -= one + 1;
        let base = draft.len() + 1;
        draft.put(DraftMove::Fork {
            next: entry(one, base, next),
            other: entry(rest, base + one, next),
        })?;
        emit(draft, branch, next)?;
    }
    emit(draft, &branches[last], next)
}

#[cycle(emit)]
fn emit_rep(
    draft: &mut Draft,
    inner: &Pattern,
    min: u32,
    max: Option<u32>,
    next: u32,
) -> Result<(), NoMemory>
    requires { length (acts_of draft.old) + rep_size (size_of (tree_of inner.now)) min max ≤ 65535 }
    ensures { OnOk result (acts_of draft.new ≡ acts_of draft.old ++ rep_code (size_of (tree_of inner.now)) (code_of (tree_of inner.now)) min max (length (acts_of draft.old)) next) }
{
    let one = size(inner);
    match max {
        None => {
            let start = draft.len() + u64::from(min) * one;
            emit_copies(draft, inner, one, min, start as u32)?;
            draft.put(DraftMove::Fork {
                next: entry(one, start + 1, start as u32),
                other: next,
            })?;
            emit(draft, inner, start as u32)
        }
        Some(max) => {
            if max < min {
                return draft.put_fail(next);
            }
            if max == 0 {
                return Ok(());
            }
            let extra = u64::from(max - min) * (one + 1);
            let after = draft.len() + u64::from(min) * one;
            emit_copies(draft, inner, one, min, entry(extra, after, next))?;
            emit_options(draft, inner, one, max - min, next)
        }
    }
}

#[cycle(emit)]
fn emit_copies(
    draft: &mut Draft,
    inner: &Pattern,
    one: u64,
    count: u32,
    next: u32,
) -> Result<(), NoMemory>
    requires size { one ≡ size_of (tree_of inner.now) }
    requires small { one ≤ 65535 }
    requires room { length (acts_of draft.old) + count * one ≤ 65535 }
    ensures { OnOk result (acts_of draft.new ≡ acts_of draft.old ++ copies count one (code_of (tree_of inner.now)) (length (acts_of draft.old)) next) }
{
    if one == 0 {
        return Ok(());
    }
    let mut rest = u64::from(count) * one;
    for left in (0..count).rev() {
        rest -= one;
        let after = draft.len() + one;
        emit(draft, inner, entry(rest, after, next))?;
    }
    Ok(())
}

#[cycle(emit)]
fn emit_options(
    draft: &mut Draft,
    inner: &Pattern,
    one: u64,
    count: u32,
    next: u32,
) -> Result<(), NoMemory>
    requires size { one ≡ size_of (tree_of inner.now) }
    requires small { one ≤ 65535 }
    requires room { length (acts_of draft.old) + count * (one + 1) ≤ 65535 }
    ensures { OnOk result (acts_of draft.new ≡ acts_of draft.old ++ options count one (code_of (tree_of inner.now)) (length (acts_of draft.old)) next) }
{
    let mut rest = u64::from(count) * (one + 1);
    for left in (0..count).rev() {
        rest -= one + 1;
        let base = draft.len() + 1;
        draft.put(DraftMove::Fork {
            next: entry(one + rest, base, next),
            other: next,
        })?;
        emit(draft, inner, entry(rest, base + one, next))?;
    }
    Ok(())
}
