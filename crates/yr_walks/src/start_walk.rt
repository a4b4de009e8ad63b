//! The starts of spans: ends that are told at places come down through a program that is read backwards.

ghost use Rattle.std.specs.Prelude.{◌≡◌, ℕ, ◌+◌, ◌-◌, ◌*◌, ◌<◌, ◌≤◌, ◌↔◌, ◌∷◌, [], List, Bool, Some, None, Option, length, IfOk, true, false, slice_get};
ghost use Rattle.yr_rows.specs.Moves.{AreWellformedMoves};
ghost use Rattle.yr_moves.specs.Programs.{moves_of, sets_of, IsWellformed};
ghost use Rattle.yr_walks.specs.declared.carried.Carried.{Carried};
ghost use Rattle.yr_walks.specs.Carried.{AreBelow, Falls, Holds, IsNoWorse};
ghost use Rattle.yr_walks.specs.Arcs.{AreEdges};
ghost use Rattle.yr_walks.specs.StartWalks.{AreAlike, AreOwn, AreShut, HasRoom, IsBestOf, IsBetter, IsMidway, IsReadyFor, Merges, StartsAt, Told, only_with};

use crate::{Edges, EndList, carry, close, join};
use std::alloc::{AllocError, Global};
use std::marker::Model;
use std::sync::ledger::Ledger;
use yr_base::{NoMemory, Steps};
use yr_moves::ProgramRows;

/// What a walk keeps: the moves to which ends came down.
#[derive(Drop)]
pub struct StartMarks {
    // Those to which ends came from above, each with the best.
    carried: EndList,
    // Those to which the end that is told at the place leads there.
    own: EndList,
    // The next `carried`.
    onwards: EndList,
}

impl Model for StartMarks {
    ghost use Rattle.std.specs.Prelude.{◌≡◌};
    ghost use Rattle.yr_walks.specs.StartWalks.{Kept};

    ghost Value = { Kept };

    ghost view = { λ s. record { carried = s.carried; own = s.own } };

    ghost invariant = { λ s. s.carried.room ≡ s.onwards.room };
}

impl StartMarks {
    /// Marks with room for this many moves.
    pub fn for_moves(alloc: Global, count: u32) -> Result<StartMarks, NoMemory>
        requires { count ≤ 65536 }
        ensures { IfOk result (λ marks. HasRoom (count + 1) marks) }
    {
        let room = count as usize + 1;
        let carried = EndList::new(alloc, room)?;
        let own = EndList::new(alloc, room)?;
        let onwards = EndList::new(alloc, room)?;
        Ok(StartMarks {
            carried,
            own,
            onwards,
        })
    }
}

/// A walk down over the places of a file, by a program that is read backwards.
#[derive(Drop)]
pub struct StartWalk<'a> {
    rows: ProgramRows<'a>,
    edges: &'a Edges,
    file: &'a [u8],
    greedy: bool,
    place: u32,
}

impl<'a> Model for StartWalk<'a> {
    ghost use Rattle.std.specs.Prelude.{false};
    ghost use Rattle.yr_moves.specs.Programs.{moves_of, sets_of};
    ghost use Rattle.yr_walks.specs.Arcs.{AreEdges};
    ghost use Rattle.yr_walks.specs.StartWalks.{Walk};

    ghost Value = { Walk };

    ghost view = { λ w. record { moves = moves_of w.rows; sets = sets_of w.rows; file = w.file.now; greedy = w.greedy; place = w.place } };

    ghost invariant = { λ w. AreEdges false (moves_of w.rows) w.edges.now };
}

/// A walk over the places below `place`, nothing told yet. The arcs are those of the program, followed onwards.
pub fn starts<'a>(
    rows: ProgramRows<'a>,
    edges: &'a Edges,
    file: &'a [u8],
    greedy: bool,
    place: u32,
    marks: &mut StartMarks,
) -> StartWalk<'a>
    requires wellformed { IsWellformed rows }
    requires edges { AreEdges false (moves_of rows) edges.now }
    requires place { place ≤ length file.now + 1 }
    requires room { HasRoom (length (moves_of rows) + 1) marks.old }
    ensures walk { result ≡ record { moves = moves_of rows.entry; sets = sets_of rows.entry; file = file.now; greedy = greedy; place = place } }
    ensures ready { IsReadyFor result marks.new }
    ensures midway { IsMidway result [] marks.new }
{
    marks.carried.clear();
    marks.own.clear();
    StartWalk {
        rows,
        edges,
        file,
        greedy,
        place,
    }
}

// Whether an end is at least as good as another.
fn is_no_worse(greedy: bool, j: u32, o: u32) -> bool
    ensures is { result ≡ true → IsNoWorse greedy j o }
    ensures other { result ≡ false → IsNoWorse greedy o j }
{
    if greedy { o <= j } else { j <= o }
}

// How many of the first ends are no worse than this.
fn count_no_worse(list: &EndList, greedy: bool, end: u32) -> usize
    requires falls { Falls greedy list.now.items }
    ensures inside { result ≤ length list.now.items }
    ensures before { (q : ℕ) (c : Carried) → q < result → slice_get list.now.items q ≡ Some c → IsNoWorse greedy c.end end }
    ensures behind { (q : ℕ) (c : Carried) → result ≤ q → slice_get list.now.items q ≡ Some c → IsNoWorse greedy end c.end }
{
    let mut count = 0;
    while count < list.len() {
        if !is_no_worse(greedy, list.get(count).end, end) {
            return count;
        }
        count += 1;
    }
    count
}

// How many of the carried ends go before the own.
fn split_point(carried: &EndList, own: &EndList, greedy: bool) -> usize
    requires falls { Falls greedy carried.now.items }
    requires alike { AreAlike own.now.items }
    ensures inside { result ≤ length carried.now.items }
    ensures before { (q q' : ℕ) (c d : Carried) → q < result → slice_get carried.now.items q ≡ Some c → slice_get own.now.items q' ≡ Some d → IsNoWorse greedy c.end d.end }
    ensures behind { (q q' : ℕ) (c d : Carried) → result ≤ q → slice_get carried.now.items q ≡ Some c → slice_get own.now.items q' ≡ Some d → IsNoWorse greedy d.end c.end }
{
    if own.len() == 0 {
        return 0;
    }
    count_no_worse(carried, greedy, own.get(0).end)
}

// Brings the carried ends and the own over the byte, the better first.
fn merge<L: Ledger>(
    rows: &ProgramRows<'_>,
    edges: &Edges,
    file: &[u8],
    i: usize,
    byte: u8,
    greedy: bool,
    carried: &EndList,
    own: &EndList,
    list: &mut EndList,
    steps: &mut Steps<L>,
)
    requires wellformed { IsWellformed rows.now }
    requires edges { AreEdges false (moves_of rows.now) edges.now }
    requires place { i ≤ length file.now }
    requires inside { AreBelow (length (moves_of rows.now) + 1) carried.now.items × AreBelow (length (moves_of rows.now) + 1) own.now.items }
    requires falls { Falls greedy carried.now.items }
    requires alike { AreAlike own.now.items }
    requires empty { list.old.items ≡ [] }
    requires room { length (moves_of rows.now) + 1 ≤ list.old.room }
    ensures merges { Merges (moves_of rows.now) (sets_of rows.now) file.now i byte greedy carried.now.items own.now.items list.new.items }
    ensures below { AreBelow (length (moves_of rows.now) + 1) list.new.items }
    ensures room { list.new.room ≡ list.old.room }
    ensures cost { steps.new ≡ steps.old + length list.new.items }
{
    let split = split_point(carried, own, greedy);
    carry(rows, edges, file, i, byte, carried, 0, split, list, steps);
    carry(rows, edges, file, i, byte, own, 0, own.len(), list, steps);
    carry(
        rows,
        edges,
        file,
        i,
        byte,
        carried,
        split,
        carried.len(),
        list,
        steps,
    );
}

// The byte at a place.
fn byte_at(file: &[u8], i: usize) -> Option<u8>
    ensures { result ≡ slice_get file.now i }
{
    file.get(i).copied()
}

// The better of two ends.
fn better(greedy: bool, first: Option<u32>, second: Option<u32>) -> Option<u32>
    ensures { IsBetter greedy first second result }
{
    match first {
        None => second,
        Some(j) => match second {
            None => Some(j),
            Some(o) => Some(if is_no_worse(greedy, j, o) { j } else { o }),
        },
    }
}

// An end, where there is another.
fn only_with(other: Option<u32>, end: Option<u32>) -> Option<u32>
    ensures { result ≡ only_with other end }
{
    match other {
        Some(_) => end,
        None => None,
    }
}

impl<'a> StartWalk<'a> {
    /// The walk falls to the next place, at which ends are told: `near` is the best end of a span that reads a byte before
    /// the place, `far` of one that reads none. The answer is the best end of a span that begins there. A step is a move
    /// that carries an end.
    pub fn next<L: Ledger>(
        &mut self,
        near: Option<u32>,
        far: Option<u32>,
        marks: &mut StartMarks,
        steps: &mut Steps<L>,
    ) -> Option<u32>
        requires more { 0 < self.old.place }
        requires ready { IsReadyFor self.old marks.old }
        requires far { (j : ℕ) → far ≡ Some j → (o : ℕ) × (near ≡ Some o) }
        ensures walk { self.new ≡ record self.old { place = self.old.place - 1 } }
        ensures ready { IsReadyFor self.new marks.new }
        ensures start { (told : List Told) → IsMidway self.old told marks.old
            → IsBestOf self.old.greedy (StartsAt self.old told far self.new.place) result }
        ensures midway { (told : List Told) → IsMidway self.old told marks.old
            → IsMidway self.new (record { at = self.new.place; near = near; far = far } ∷ told) marks.new }
        ensures least_cost { steps.old + 1 ≤ steps.new }
        ensures most_cost { steps.new ≤ steps.old + 2 * length self.old.moves + 1 }
    {
        let carried = &mut marks.carried;
        let own = &mut marks.own;
        let onwards = &mut marks.onwards;
        self.fall(near, far, carried, own, onwards, steps)
    }

    /// The places from this one on are done.
    pub fn place(&self) -> u32
        ensures { result ≡ self.now.place }
    {
        self.place
    }

    // `next` with the lists apart.
    fn fall<L: Ledger>(
        &mut self,
        near: Option<u32>,
        far: Option<u32>,
        carried: &mut EndList,
        own: &mut EndList,
        onwards: &mut EndList,
        steps: &mut Steps<L>,
    ) -> Option<u32>
        requires more { 0 < self.old.place }
        requires ready { IsReadyFor self.old (record { carried = carried.old; own = own.old }) }
        requires room { onwards.old.room ≡ carried.old.room }
        requires far { (j : ℕ) → far ≡ Some j → (o : ℕ) × (near ≡ Some o) }
        ensures walk { self.new ≡ record self.old { place = self.old.place - 1 } }
        ensures ready { IsReadyFor self.new (record { carried = carried.new; own = own.new }) }
        ensures start { (told : List Told) → IsMidway self.old told (record { carried = carried.old; own = own.old })
            → IsBestOf self.old.greedy (StartsAt self.old told far self.new.place) result }
        ensures midway { (told : List Told) → IsMidway self.old told (record { carried = carried.old; own = own.old })
            → IsMidway self.new (record { at = self.new.place; near = near; far = far } ∷ told) (record { carried = carried.new; own = own.new }) }
        ensures room { onwards.new.room ≡ carried.new.room }
        ensures least_cost { steps.old + 1 ≤ steps.new }
        ensures most_cost { steps.new ≤ steps.old + 2 * length self.old.moves + 1 }
    {
        self.step_down();
        self.bring(carried, own, onwards, steps);
        self.begin(near, own, steps);
        if onwards.len() + own.len() < 2 {
            steps.tick();
        }
        std::mem::swap(carried, onwards);
        self.answer(far, carried, own)
    }

    // The next place is the walk's.
    fn step_down(&mut self)
        requires { 0 < self.old.place }
        ensures { self.new ≡ record self.old { place = self.old.place - 1 } }
    {
        self.place -= 1;
    }

    // The ends that come from above: those of the place above, over the byte.
    fn bring<L: Ledger>(
        &self,
        carried: &EndList,
        own: &EndList,
        onwards: &mut EndList,
        steps: &mut Steps<L>,
    )
        requires wellformed { AreWellformedMoves self.now.moves self.now.sets }
        requires place { self.now.place ≤ length self.now.file }
        requires below { AreBelow (length self.now.moves + 1) carried.now.items × AreBelow (length self.now.moves + 1) own.now.items }
        requires falls { Falls self.now.greedy carried.now.items }
        requires alike { AreAlike own.now.items }
        requires room { length self.now.moves + 1 ≤ onwards.old.room }
        ensures falls { Falls self.now.greedy onwards.new.items }
        ensures shut { AreShut self.now onwards.new.items }
        ensures past { slice_get self.now.file self.now.place ≡ None → onwards.new.items ≡ [] }
        ensures merges { (b : ℕ) → slice_get self.now.file self.now.place ≡ Some b
            → Merges self.now.moves self.now.sets self.now.file self.now.place b self.now.greedy carried.now.items own.now.items onwards.new.items }
        ensures below { AreBelow (length self.now.moves + 1) onwards.new.items }
        ensures room { onwards.new.room ≡ onwards.old.room }
        ensures cost { steps.new ≡ steps.old + length onwards.new.items }
    {
        onwards.clear();
        let i = self.place as usize;
        let rows = &self.rows;
        match byte_at(self.file, i) {
            None => (),
            Some(b) => merge(
                rows,
                self.edges,
                self.file,
                i,
                b,
                self.greedy,
                carried,
                own,
                onwards,
                steps,
            ),
        }
    }

    // The end that is told at the place, and where it leads there.
    fn begin<L: Ledger>(&self, near: Option<u32>, own: &mut EndList, steps: &mut Steps<L>)
        requires wellformed { AreWellformedMoves self.now.moves self.now.sets }
        requires place { self.now.place ≤ length self.now.file }
        requires room { length self.now.moves + 1 ≤ own.old.room }
        ensures own { AreOwn self.now near self.now.place own.new.items }
        ensures alike { AreAlike own.new.items }
        ensures shut { AreShut self.now own.new.items }
        ensures below { AreBelow (length self.now.moves + 1) own.new.items }
        ensures room { own.new.room ≡ own.old.room }
        ensures cost { steps.new ≡ steps.old + (length own.new.items - 1) }
    {
        own.clear();
        match near {
            None => (),
            Some(end) => self.open(end, own, steps),
        }
    }

    // Where move 0 leads at the place, with an end.
    fn open<L: Ledger>(&self, end: u32, own: &mut EndList, steps: &mut Steps<L>)
        requires wellformed { AreWellformedMoves self.now.moves self.now.sets }
        requires place { self.now.place ≤ length self.now.file }
        requires room { length self.now.moves + 1 ≤ own.old.room }
        requires empty { own.old.items ≡ [] }
        ensures own { AreOwn self.now (Some end) self.now.place own.new.items }
        ensures alike { AreAlike own.new.items }
        ensures shut { AreShut self.now own.new.items }
        ensures below { AreBelow (length self.now.moves + 1) own.new.items }
        ensures room { own.new.room ≡ own.old.room }
        ensures cost { steps.new + 1 ≡ steps.old + length own.new.items }
    {
        let i = self.place as usize;
        let rows = &self.rows;
        own.add(0, end);
        join(rows, self.edges, self.file, i, None, 0, end, own);
        close(rows, self.edges, self.file, i, 1, end, own, steps);
    }

    // The best end of a span that begins at the place.
    fn answer(&self, far: Option<u32>, carried: &EndList, own: &EndList) -> Option<u32>
        requires wellformed { AreWellformedMoves self.now.moves self.now.sets }
        requires room { (length self.now.moves < carried.now.room) × (length self.now.moves < own.now.room) }
        ensures { (above : Option ℕ) × (accepts : Option ℕ)
            × ((j : ℕ) → (above ≡ Some j) ↔ Holds carried.now.items (length self.now.moves) j)
            × ((j : ℕ) → (accepts ≡ Some j) ↔ Holds own.now.items (length self.now.moves) j)
            × IsBetter self.now.greedy above (only_with accepts far) result }
    {
        let accept = self.rows.len() as u32;
        let above = carried.end(accept);
        let here = only_with(own.end(accept), far);
        better(self.greedy, above, here)
    }
}
