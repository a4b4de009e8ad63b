//! The arcs of a program: each way that a move leads, chained to the move from which it is followed.

ghost use Rattle.std.specs.Prelude.{◌≡◌, ℕ, ◌+◌, ◌*◌, ◌/◌, ◌%◌, ◌<◌, ◌≤◌, ◌==◌, length, IfOk, Option, slice_get, slice_set, if◌then◌else◌, Some, None};
ghost use Rattle.yr_moves.specs.Programs.{moves_of, IsWellformed};
ghost use Rattle.yr_walks.specs.Arcs.{AreEdges, head, tail, way};

use std::alloc::{AllocError, Global};
use yr_base::NoMemory;
use yr_moves::ProgramRows;
use yr_rows::Move;

/// The arcs of one program, three numbers a move. Arc 2m is the first way of move m and arc 2m + 1 its other way; Accept
/// leads to the number of moves. A link is the number of an arc and one, or 0.
#[derive(Drop)]
pub struct Edges {
    // The first link of each move.
    first: Vec<u32>,
    // The link after each arc.
    after: Vec<u32>,
    // Whether arcs are followed back.
    back: bool,
}

// Where an arc leads.
#[inline]
fn way(count: u32, e: u32, v: Move) -> Option<u32>
    ensures { result ≡ way count e v }
{
    match v {
        Move::Accept => first(e, count),
        Move::Set { next, .. } => first(e, next),
        Move::Test { next, .. } => first(e, next),
        Move::Fork { next, other } => Some(if e % 2 == 0 { next } else { other }),
    }
}

// The target of the only way of a move.
#[inline]
fn first(e: u32, target: u32) -> Option<u32>
    ensures { result ≡ (if (e % 2 == 0) then Some target else None) }
{
    if e % 2 == 0 { Some(target) } else { None }
}

// The move from which an arc is followed.
fn head(back: bool, count: u32, e: u32, v: Move) -> Option<u32>
    ensures { result ≡ head back count e v }
{
    let target = way(count, e, v);
    if back {
        return target;
    }
    match target {
        Some(_) => Some(e / 2),
        None => None,
    }
}

// Chains one more arc.
fn chain(first: &mut Vec<u32>, after: &mut Vec<u32>, e: u32, x: u32)
    requires arc { e < length after.old.items }
    requires head { x < length first.old.items }
    requires small { e < 131072 }
    ensures { (h : ℕ) → slice_get first.old.items x ≡ Some h
        → (first.new.items ≡ slice_set first.old.items x (e + 1)) × (after.new.items ≡ slice_set after.old.items e h) }
{
    after[e as usize] = first[x as usize];
    first[x as usize] = e + 1;
}

impl Edges {
    /// The arcs of a program, to be followed back or onwards.
    pub fn of(alloc: Global, rows: ProgramRows<'_>, back: bool) -> Result<Edges, NoMemory>
        requires { IsWellformed rows }
        ensures { IfOk result (λ edges. AreEdges back (moves_of rows.entry) edges) }
    {
        let count = rows.len() as u32;
        let mut first = vec![in alloc; 0u32; count as usize + 1]?;
        let mut after = vec![in alloc; 0u32; 2 * count as usize]?;
        for e in 0..2 * count {
            match head(back, count, e, rows.move_at(e / 2)) {
                Some(x) => chain(&mut first, &mut after, e, x),
                None => (),
            }
        }
        Ok(Edges { first, after, back })
    }

    /// The first link of a move.
    #[inline]
    pub fn first(&self, x: u32) -> u32
        requires { x < length self.now.first.items }
        ensures { slice_get self.now.first.items x ≡ Some result }
    {
        self.first[x as usize]
    }

    /// The link after an arc.
    #[inline]
    pub fn after(&self, e: u32) -> u32
        requires { e < length self.now.after.items }
        ensures { slice_get self.now.after.items e ≡ Some result }
    {
        self.after[e as usize]
    }

    /// The move to which an arc is followed.
    #[inline]
    pub fn tail(&self, count: u32, e: u32, v: Move) -> Option<u32>
        ensures { result ≡ tail self.now.back count e v }
    {
        if self.back {
            Some(e / 2)
        } else {
            way(count, e, v)
        }
    }
}
