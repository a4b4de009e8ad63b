//! An open loop.

ghost use Rattle.std.specs.Prelude.{◌≡◌, ◌+◌, ◌<◌, ◌≤◌, ◌^◌, ◌≤ℤ◌, pos};
ghost use Rattle.yr_vm.specs.Turns.{turns_left, last_number, last_item, last_row};

use crate::listing::copy_items;
use crate::turning::{item_turn, next_turn};
use crate::turns::{Left, Present, Turned};
use yr_base::Value;
use yr_values::Quantifier;

/// The most items of a list.
pub const MOST_ITEMS: usize = 128;

/// The turns that a loop over a range or over strings begins, at least one.
#[derive(Clone, Copy)]
pub struct Turns {
    pub present: Present,
    pub left: Left,
    pub total: u64,
    ghost counted: { turns_left left < total },
    ghost small: { total ≤ 2 ^ 62 },
    ghost numbers: { last_number left ≤ℤ pos 9223372036854775807 },
    ghost unlisted: { last_item left ≡ 0 },
    ghost rows: { last_row left ≤ 2 ^ 62 },
}

/// A loop that is open: its present turn and those left, and how many of those before held.
#[derive(Clone, Copy)]
pub struct OpenLoop {
    pub place: u32,
    pub end: u32,
    pub quantifier: Quantifier,
    pub present: Present,
    pub left: Left,
    pub total: u64,
    pub held: u64,
    /// So many values stay on the stack until it ends.
    pub kept: u32,
    /// The items of a list; None is undefined.
    pub items: [Option<i64>; MOST_ITEMS],
    ghost near: { place + 1 < 2 ^ 32 },
    ghost counted: { held + turns_left left < total },
    ghost small: { total ≤ 2 ^ 62 },
    ghost numbers: { last_number left ≤ℤ pos 9223372036854775807 },
    ghost listed: { last_item left ≤ 128 },
    ghost rows: { last_row left ≤ 2 ^ 62 },
}

impl OpenLoop {
    ghost use Rattle.std.specs.Prelude.{◌≡◌, ◌+◌, ◌<◌, ◌≤◌, ◌^◌, ℕ, List, ◌∷◌, length, map};
    ghost use Rattle.yr_rows.specs.Nodes.{outputs_of};
    ghost use Rattle.yr_values.specs.Values.{Value as PlainValue, shown};
    ghost use Rattle.yr_answer.specs.Turns.{item_turns};
    ghost use Rattle.yr_vm.specs.Items.{AreItems};
    ghost use Rattle.yr_machine.specs.Machine.{OpenLoop as PlainLoop, next_turn};
    ghost use Rattle.yr_vm.specs.Turns.{left_shown, present_shown};
    ghost use Rattle.yr_vm.specs.OpenLoops.{loop_shown, held_after, turned};

    /// A loop that nothing has begun.
    pub fn blank() -> OpenLoop {
        OpenLoop {
            place: 0,
            end: 0,
            quantifier: Quantifier::All,
            present: Present::Undefined,
            left: Left::Items { from: 0, count: 0 },
            total: 1,
            held: 0,
            kept: 0,
            items: [None; MOST_ITEMS],
        }
    }

    /// Begins over these turns. The items stay.
    #[inline]
    pub fn begin(&mut self, place: u32, end: u32, quantifier: Quantifier, turns: Turns, kept: u32)
        requires { place + 1 < 2 ^ 32 }
        ensures items { self.new.items ≡ self.old.items }
        ensures place { self.new.place ≡ place }
        ensures end { self.new.end ≡ end }
        ensures quantifier { self.new.quantifier ≡ quantifier }
        ensures present { self.new.present ≡ turns.present }
        ensures left { self.new.left ≡ turns.left }
        ensures total { self.new.total ≡ turns.total }
        ensures held { self.new.held ≡ 0 }
        ensures kept { self.new.kept ≡ kept }
    {
        self.place = place;
        self.end = end;
        self.quantifier = quantifier;
        self.present = turns.present;
        self.left = turns.left;
        self.total = turns.total;
        self.held = 0;
        self.kept = kept;
    }

    /// Begins over the items of a list.
    pub fn begin_list(
        &mut self,
        place: u32,
        end: u32,
        quantifier: Quantifier,
        values: &[Value<'_>],
        kept: u32,
    )
        requires near { place + 1 < 2 ^ 32 }
        requires some { 1 ≤ length values.now }
        requires few { length values.now ≤ 128 }
        requires items { AreItems (map shown values.now) }
        ensures turns { (lists : List ℕ) → present_shown self.new.present ∷ left_shown lists self.new.items self.new.left ≡ item_turns (map shown values.now) }
        ensures place { self.new.place ≡ place }
        ensures end { self.new.end ≡ end }
        ensures quantifier { self.new.quantifier ≡ quantifier }
        ensures total { self.new.total ≡ length values.now }
        ensures held { self.new.held ≡ 0 }
        ensures kept { self.new.kept ≡ kept }
    {
        copy_items(&mut self.items, values);
        self.place = place;
        self.end = end;
        self.quantifier = quantifier;
        self.present = item_turn(self.items[0]);
        self.left = Left::Items {
            from: 1,
            count: values.len() - 1,
        };
        self.total = values.len() as u64;
        self.held = 0;
        self.kept = kept;
    }

    /// A turn has ended with this answer. The next one begins, where one is left.
    #[inline]
    pub fn turn(&mut self, lists: &[u8], answer: bool) -> Turned
        ensures { (below : List PlainValue) (loops : List PlainLoop) →
            let old = loop_shown (outputs_of lists.now) self.old in
            next_turn old old.left (held_after answer old.held) below loops
            ≡ turned result below (loop_shown (outputs_of lists.now) self.new) loops }
    {
        let held = if answer { self.held + 1 } else { self.held };
        match next_turn(lists, &self.items, self.left) {
            Some((present, left)) => {
                self.present = present;
                self.left = left;
                self.held = held;
                Turned::Again {
                    place: self.place + 1,
                }
            }
            None => Turned::Over {
                end: self.end,
                kept: self.kept,
                answer: self.quantifier.meets(held, self.total),
            },
        }
    }
}
