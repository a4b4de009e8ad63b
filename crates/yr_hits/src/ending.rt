//! The ends of a hit.

ghost use Rattle.std.specs.Prelude.{◌≡◌, ◌≢◌, ◌+◌, ◌*◌, ◌<◌, ◌≤◌, length};
ghost use Rattle.yr_image.specs.Views.{image_of};
ghost use Rattle.yr_machine.specs.Budget.{moves_count, side_moves};
ghost use Rattle.yr_hits.specs.Programs.{HasRoom};
ghost use Rattle.yr_hits.specs.Spans.{IsGoodHit, LeadsTo, EndsAt, IsOnly, IsBestOf, AreEnds};

use crate::hit::{Ends, Hit};
use crate::lending::program;
use crate::literal::stands;
use std::sync::ledger::Ledger;
use yr_base::{Steps, has_right_border};
use yr_moves::{Marks, best_end};

// The only place that a side leads to which is no program.
fn only_end<L: Ledger>(hit: &Hit<'_>, steps: &mut Steps<L>) -> Option<usize>
    requires good { IsGoodHit hit.now }
    requires kind { hit.now.row.after_kind ≢ 2 }
    ensures end { IsOnly (LeadsTo hit.now) result }
    ensures least_cost { steps.old ≤ steps.new }
    ensures most_cost { steps.new ≤ steps.old + 1 }
{
    let row = &hit.row;
    if row.after_kind == 0 {
        return Some(hit.at);
    }
    steps.tick();
    let bytes = hit.view.pool(row.after_place, row.after_length);
    if stands(hit.file, hit.at, bytes, row.key, row.fold == 1) {
        return Some(hit.at + bytes.len());
    }
    None
}

// The ends where the side after the atom is no program.
fn plain_ends<L: Ledger>(hit: &Hit<'_>, steps: &mut Steps<L>) -> Ends
    requires good { IsGoodHit hit.now }
    requires kind { hit.now.row.after_kind ≢ 2 }
    ensures ends { AreEnds hit.now result }
    ensures least_cost { steps.old ≤ steps.new }
    ensures most_cost { steps.new ≤ steps.old + 1 }
{
    let none = Ends {
        near: None,
        far: None,
    };
    let Some(end) = only_end(hit, steps) else {
        return none;
    };
    if !has_right_border(hit.border, hit.file, end) {
        return none;
    }
    let near = Some(end as u32);
    let far = if hit.at < end { near } else { None };
    Ends { near, far }
}

// The best end from `least` on of the program after the atom.
fn program_end<L: Ledger>(
    hit: &Hit<'_>,
    least: usize,
    marks: &mut Marks,
    steps: &mut Steps<L>,
) -> Option<u32>
    requires good { IsGoodHit hit.now }
    requires kind { hit.now.row.after_kind ≡ 2 }
    requires room { HasRoom (image_of hit.now.view.now) marks.old.room }
    requires least { least ≤ hit.now.at + 1 }
    ensures end { IsBestOf hit.now.greatest (λ j. EndsAt hit.now j × (least ≤ j)) result }
    ensures room { marks.new.room ≡ marks.old.room }
    ensures least_cost { steps.old ≤ steps.new }
    ensures most_cost { steps.new ≤ steps.old
        + moves_count (image_of hit.now.view.now) hit.now.row.after_place * (length hit.now.file.now + 1) }
{
    best_end(
        program(hit.view, hit.row.after_place),
        hit.file,
        hit.at as u32,
        least as u32,
        hit.greatest,
        hit.border,
        marks,
        steps,
    )
}

// The ends where the side after the atom is a program.
fn program_ends<L: Ledger>(hit: &Hit<'_>, marks: &mut Marks, steps: &mut Steps<L>) -> Ends
    requires good { IsGoodHit hit.now }
    requires kind { hit.now.row.after_kind ≡ 2 }
    requires room { HasRoom (image_of hit.now.view.now) marks.old.room }
    ensures ends { AreEnds hit.now result }
    ensures room { marks.new.room ≡ marks.old.room }
    ensures least_cost { steps.old ≤ steps.new }
    ensures most_cost { steps.new ≤ steps.old
        + 2 * (moves_count (image_of hit.now.view.now) hit.now.row.after_place * (length hit.now.file.now + 1)) }
{
    let near = program_end(hit, hit.at, marks, steps);
    if hit.row.atom_length != 0 {
        return Ends { near, far: None };
    }
    let Some(_) = near else {
        return Ends { near, far: None };
    };
    let far = program_end(hit, hit.at + 1, marks, steps);
    Ends { near, far }
}

/// The best ends of a hit, by the side after its atom.
pub fn ends_of<L: Ledger>(hit: &Hit<'_>, marks: &mut Marks, steps: &mut Steps<L>) -> Ends
    requires good { IsGoodHit hit.now }
    requires room { HasRoom (image_of hit.now.view.now) marks.old.room }
    ensures ends { AreEnds hit.now result }
    ensures room { marks.new.room ≡ marks.old.room }
    ensures least_cost { steps.old ≤ steps.new }
    ensures most_cost { steps.new ≤ steps.old + 1
        + 2 * (side_moves (image_of hit.now.view.now) hit.now.row.after_kind hit.now.row.after_place * (length hit.now.file.now + 1)) }
{
    if hit.row.after_kind == 2 {
        return program_ends(hit, marks, steps);
    }
    plain_ends(hit, steps)
}
