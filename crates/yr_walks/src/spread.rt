//! One place of a walk: how ends spread from moves to those that they are joined to.

ghost use Rattle.std.specs.Prelude.{◌≡◌, ℕ, ◌+◌, ◌-◌, ◌*◌, ◌<◌, ◌≤◌, ◌↔◌, List, IsTrue, Bool, None, Some, length, slice_get};
ghost use Rattle.yr_rows.specs.Moves.{NamesAmong};
ghost use Rattle.yr_rows.specs.Accepts.{holds};
ghost use Rattle.yr_moves.specs.Programs.{moves_of, sets_of, IsWellformed};
ghost use Rattle.yr_walks.specs.declared.carried.Carried.{Carried};
ghost use Rattle.yr_walks.specs.Carried.{AreBelow};
ghost use Rattle.yr_walks.specs.Arcs.{AreEdges, Opens};
ghost use Rattle.yr_walks.specs.Spreads.{AreClosed, CameFrom, Carries, Follows, Grows, HasFloor, Spreads, bound};

use crate::carried::EndList;
use crate::edges::Edges;
use std::sync::ledger::Ledger;
use yr_base::{Steps, is_edge, is_wide_edge};
use yr_moves::ProgramRows;
use yr_rows::{Assertion, Move};

// Whether an assertion holds at a place.
fn holds(assertion: Assertion, file: &[u8], i: usize) -> bool
    requires { i ≤ length file.now }
    ensures { result ≡ holds assertion file.now i }
{
    match assertion {
        Assertion::Start => i == 0,
        Assertion::End => i == file.len(),
        Assertion::Edge => is_edge(file, i),
        Assertion::NotEdge => !is_edge(file, i),
        Assertion::WideEdge => is_wide_edge(file, i),
        Assertion::WideNotEdge => !is_wide_edge(file, i),
    }
}

// Whether a move leads on over the byte, or with none at place i without reading.
#[inline]
fn is_open(rows: &ProgramRows<'_>, file: &[u8], i: usize, byte: Option<u8>, v: Move) -> bool
    requires names { NamesAmong (length (moves_of rows.now)) (length (sets_of rows.now)) v }
    requires place { i ≤ length file.now }
    ensures { IsTrue result ↔ Opens (sets_of rows.now) file.now i v byte }
{
    match v {
        Move::Set { set, .. } => match byte {
            Some(b) => rows.set_has(set, b),
            None => false,
        },
        Move::Test { assertion, .. } => match byte {
            Some(_) => false,
            None => holds(assertion, file, i),
        },
        Move::Fork { .. } => byte.is_none(),
        Move::Accept => byte.is_none(),
    }
}

// The move to which an arc of move v is followed joins with the end, where v leads on.
#[inline]
fn follow(
    rows: &ProgramRows<'_>,
    edges: &Edges,
    file: &[u8],
    i: usize,
    byte: Option<u8>,
    e: u32,
    v: Move,
    end: u32,
    list: &mut EndList,
)
    requires names { NamesAmong (length (moves_of rows.now)) (length (sets_of rows.now)) v }
    requires place { i ≤ length file.now }
    requires arc { e < 2 * length (moves_of rows.now) }
    requires few { length (moves_of rows.now) ≤ 65536 }
    requires room { length (moves_of rows.now) + 1 ≤ list.old.room }
    ensures follows { Follows edges.now.back (length (moves_of rows.now)) (sets_of rows.now) file.now i byte e v end list.old.items list.new.items }
    ensures room { list.new.room ≡ list.old.room }
{
    if is_open(rows, file, i, byte, v) {
        if let Some(y) = edges.tail(rows.len() as u32, e, v) {
            list.add(y, end);
        }
    }
}

/// Each move that move x is joined to at place i, over the byte or without one, joins with the end, if it is no member.
pub fn join(
    rows: &ProgramRows<'_>,
    edges: &Edges,
    file: &[u8],
    i: usize,
    byte: Option<u8>,
    x: u32,
    end: u32,
    list: &mut EndList,
)
    requires wellformed { IsWellformed rows.now }
    requires edges { AreEdges edges.now.back (moves_of rows.now) edges.now }
    requires place { i ≤ length file.now }
    requires inside { x ≤ length (moves_of rows.now) }
    requires room { length (moves_of rows.now) + 1 ≤ list.old.room }
    ensures spreads { Spreads edges.now.back (moves_of rows.now) (sets_of rows.now) file.now i byte x end list.old.items list.new.items }
    ensures room { list.new.room ≡ list.old.room }
{
    let mut link = edges.first(x);
    while link > 0 {
        let e = link - 1;
        let v = rows.move_at(e / 2);
        follow(rows, edges, file, i, byte, e, v, end, list);
        link = edges.after(e);
    }
}

/// Each move that members from `from` on lead to without a byte joins with the end, which these members carry. A step
/// is a member that is looked at.
pub fn close<L: Ledger>(
    rows: &ProgramRows<'_>,
    edges: &Edges,
    file: &[u8],
    i: usize,
    from: usize,
    end: u32,
    list: &mut EndList,
    steps: &mut Steps<L>,
)
    requires wellformed { IsWellformed rows.now }
    requires edges { AreEdges edges.now.back (moves_of rows.now) edges.now }
    requires place { i ≤ length file.now }
    requires room { length (moves_of rows.now) + 1 ≤ list.old.room }
    requires below { AreBelow (bound edges.now.back (length (moves_of rows.now))) list.old.items }
    requires from { from ≤ length list.old.items }
    requires end { (q : ℕ) (c : Carried) → from ≤ q → slice_get list.old.items q ≡ Some c → c.end ≡ end }
    ensures closed { (greatest : Bool) → HasFloor greatest end list.old.items
        → AreClosed edges.now.back (moves_of rows.now) (sets_of rows.now) file.now i greatest from list.old.items
        → AreClosed edges.now.back (moves_of rows.now) (sets_of rows.now) file.now i greatest (length list.new.items) list.new.items }
    ensures grows { Grows end list.old.items list.new.items }
    ensures came { CameFrom edges.now.back (moves_of rows.now) (sets_of rows.now) file.now i list.old.items list.new.items }
    ensures below { AreBelow (bound edges.now.back (length (moves_of rows.now))) list.new.items }
    ensures room { list.new.room ≡ list.old.room }
    ensures cost { steps.new + from ≡ steps.old + length list.new.items }
{
    let mut k = from;
    while k < list.len() {
        steps.tick();
        join(rows, edges, file, i, None, list.get(k).by, end, list);
        k += 1;
    }
}

/// Over the byte before the old members' place, each of them between the two places brings its end to place i: to what
/// it is joined to, and to what these are joined to there. The first end that comes to a move stays.
pub fn carry<L: Ledger>(
    rows: &ProgramRows<'_>,
    edges: &Edges,
    file: &[u8],
    i: usize,
    byte: u8,
    old: &EndList,
    from: usize,
    to: usize,
    list: &mut EndList,
    steps: &mut Steps<L>,
)
    requires wellformed { IsWellformed rows.now }
    requires edges { AreEdges edges.now.back (moves_of rows.now) edges.now }
    requires place { i ≤ length file.now }
    requires range { (from ≤ to) × (to ≤ length old.now.items) }
    requires inside { AreBelow (length (moves_of rows.now) + 1) old.now.items }
    requires room { length (moves_of rows.now) + 1 ≤ list.old.room }
    requires below { AreBelow (bound edges.now.back (length (moves_of rows.now))) list.old.items }
    ensures carries { Carries edges.now.back (moves_of rows.now) (sets_of rows.now) file.now i byte old.now.items from to list.old.items list.new.items }
    ensures below { AreBelow (bound edges.now.back (length (moves_of rows.now))) list.new.items }
    ensures room { list.new.room ≡ list.old.room }
    ensures cost { steps.new + length list.old.items ≡ steps.old + length list.new.items }
{
    for k in from..to {
        let c = old.get(k);
        let known = list.len();
        join(rows, edges, file, i, Some(byte), c.by, c.end, list);
        close(rows, edges, file, i, known, c.end, list, steps);
    }
}
