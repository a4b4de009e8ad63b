//! Parts of a hex string: a pattern, and the jumps in it. Places go by the bytes that are left, so that what stands first has the most.

ghost use Rattle.std.specs.Prelude.{◌≡◌, map, IfOk, None};
ghost use Rattle.yr_pattern.specs.Set.{bytes_of};
ghost use Rattle.yr_pattern.specs.Tree.{tree_of};
ghost use Rattle.yr_hex.specs.Parts.{part_of, list_of, choice_of};
ghost use Rattle.yr_hex.specs.Reading as spec;

use crate::jump::Numbers;
use std::alloc::{AllocError, Global};
use yr_pattern::{ByteSet, Pattern};

/// An item: its place where it is a jump, and its first jump that breaks a rule.
#[derive(Drop)]
pub struct Part {
    pub pattern: Pattern,
    pub jump: Option<usize>,
    pub bad: Option<usize>,
}

/// Items: the place of the last where that is a jump, and the first jump that breaks a rule.
#[derive(Drop)]
pub struct List {
    members: Vec<Pattern>,
    jump: Option<usize>,
    bad: Option<usize>,
}

/// Branches, and the first jump in them that breaks a rule.
#[derive(Drop)]
pub struct Choice {
    branches: Vec<Pattern>,
    bad: Option<usize>,
}

fn first_of(a: Option<usize>, b: Option<usize>) -> Option<usize>
    ensures { result ≡ spec.first_of a b }
{
    match (a, b) {
        (None, b) => b,
        (Some(a), None) => Some(a),
        (Some(a), Some(b)) => Some(a.max(b)),
    }
}

/// A jump that stands first.
fn jump_first(members: &[Pattern], jump: Option<usize>) -> Option<usize>
    ensures { result ≡ spec.jump_first (map tree_of members.now) jump }
{
    match members {
        [] => jump,
        [_, ..] => None,
    }
}

/// One byte of a set.
pub fn byte_part(set: ByteSet) -> Part
    ensures { part_of result ≡ spec.byte_part (bytes_of set) }
{
    Part {
        pattern: Pattern::One(set),
        jump: None,
        bad: None,
    }
}

/// Any bytes, as many as the numbers say.
pub fn jump_part(
    alloc: Global,
    inside: bool,
    left: usize,
    numbers: Numbers,
) -> Result<Part, AllocError>
    ensures { IfOk result (λ p. part_of p ≡ spec.jump_part inside left numbers.least numbers.most) }
{
    let any = ByteSet::none().complement();
    let inner = Box::new(alloc, Pattern::One(any))?;
    let bad = if numbers.is_allowed(inside) {
        None
    } else {
        Some(left)
    };
    let pattern = Pattern::Rep {
        inner,
        min: numbers.least,
        max: numbers.most,
    };
    Ok(Part {
        pattern,
        jump: Some(left),
        bad,
    })
}

impl List {
    pub fn new(alloc: Global) -> List
        ensures { list_of result ≡ spec.no_members }
    {
        List {
            members: Vec::new(alloc),
            jump: None,
            bad: None,
        }
    }

    /// One more item.
    pub fn push(&mut self, part: Part) -> Result<(), AllocError>
        ensures { IfOk result (λ _. list_of self.new ≡ spec.push (list_of self.old) (part_of part)) }
    {
        let Part { pattern, jump, bad } = part;
        let first = jump_first(&self.members, jump);
        self.bad = first_of(first_of(self.bad, bad), first);
        self.jump = jump;
        self.members.push(pattern)?;
        Ok(())
    }

    /// The items one after the other.
    pub fn sequence(self) -> Part
        ensures { part_of result ≡ spec.sequence (list_of self) }
    {
        let List { members, jump, bad } = self;
        Part {
            pattern: Pattern::Seq(members),
            jump: None,
            bad: first_of(bad, jump),
        }
    }
}

impl Choice {
    pub fn new(alloc: Global, first: Part) -> Result<Choice, AllocError>
        ensures { IfOk result (λ c. choice_of c ≡ spec.one_branch (part_of first)) }
    {
        let Part { pattern, jump, bad } = first;
        let _ = jump;
        let mut branches = Vec::new(alloc);
        branches.push(pattern)?;
        Ok(Choice { branches, bad })
    }

    /// One more branch.
    pub fn push(&mut self, branch: Part) -> Result<(), AllocError>
        ensures { IfOk result (λ _. choice_of self.new ≡ spec.add (choice_of self.old) (part_of branch)) }
    {
        let Part { pattern, jump, bad } = branch;
        let _ = jump;
        self.bad = first_of(self.bad, bad);
        self.branches.push(pattern)?;
        Ok(())
    }

    /// One of the branches.
    pub fn choice(self) -> Part
        ensures { part_of result ≡ spec.choice (choice_of self) }
    {
        let Choice { branches, bad } = self;
        Part {
            pattern: Pattern::Alt(branches),
            jump: None,
            bad,
        }
    }
}
