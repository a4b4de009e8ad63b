//! The starts of a hit, and the matches that begin there.

ghost use Rattle.std.specs.Prelude.{◌≡◌, ◌≢◌, ◌+◌, ◌*◌, ◌<◌, ◌≤◌, length, OnOk};
ghost use Rattle.yr_image.specs.Views.{image_of};
ghost use Rattle.yr_machine.specs.Budget.{moves_count, side_moves, hit_cost};
ghost use Rattle.yr_hits.specs.Programs.{HasRoom};
ghost use Rattle.yr_hits.specs.Gathering.{Grows};
ghost use Rattle.yr_hits.specs.Spans.{begin_of, IsGoodHit, StartsAt, EndsAt, AreEnds, IsOnly, IsBestOf, IsSpanFrom, IsSpanOf};

use crate::ending::ends_of;
use crate::hit::{Ends, Hit};
use crate::lending::program;
use crate::literal::stands;
use std::sync::ledger::Ledger;
use yr_base::{NoMemory, Steps, has_left_border};
use yr_moves::{Marks, starts};

/// The only start, where the side before the atom is no program.
pub fn only_start<L: Ledger>(hit: &Hit<'_>, steps: &mut Steps<L>) -> Option<usize>
    requires good { IsGoodHit hit.now }
    requires kind { hit.now.row.before_kind ≢ 2 }
    ensures start { IsOnly (StartsAt hit.now) result }
    ensures least_cost { steps.old ≤ steps.new }
    ensures most_cost { steps.new ≤ steps.old + 1 }
{
    let row = &hit.row;
    let begin = hit.at - row.atom_length as usize;
    if row.before_kind == 0 {
        return Some(begin);
    }
    steps.tick();
    let bytes = hit.view.pool(row.before_place, row.before_length);
    if begin < bytes.len() {
        return None;
    }
    let start = begin - bytes.len();
    if stands(hit.file, start, bytes, row.key, row.fold == 1) {
        return Some(start);
    }
    None
}

// The best end that lies past a start.
fn end_past(hit: &Hit<'_>, ends: &Ends, start: usize) -> Option<u32>
    requires good { IsGoodHit hit.now }
    requires start { StartsAt hit.now start }
    requires ends { AreEnds hit.now ends.now }
    ensures { IsBestOf hit.now.greatest (λ j. EndsAt hit.now j × (start < j)) result }
{
    if start < hit.at {
        return ends.near;
    }
    ends.far
}

/// The match that begins at a start, if there is one.
pub fn add_match<L: Ledger>(
    hit: &Hit<'_>,
    ends: &Ends,
    start: usize,
    list: &mut Vec<(u32, u32)>,
    steps: &mut Steps<L>,
) -> Result<(), NoMemory>
    requires good { IsGoodHit hit.now }
    requires start { StartsAt hit.now start }
    requires ends { AreEnds hit.now ends.now }
    ensures grows { OnOk result (Grows (IsSpanFrom hit.now start) hit.now.greatest list.old.items list.new.items) }
    ensures least_cost { steps.old ≤ steps.new }
    ensures most_cost { steps.new ≤ steps.old + 1 }
{
    if !has_left_border(hit.border, hit.file, start) {
        return Ok(());
    }
    let Some(end) = end_past(hit, ends, start) else {
        return Ok(());
    };
    steps.tick();
    list.push((start as u32, end - start as u32))?;
    Ok(())
}

// The match of a hit whose side before the atom is no program.
fn add_from_place<L: Ledger>(
    hit: &Hit<'_>,
    marks: &mut Marks,
    list: &mut Vec<(u32, u32)>,
    steps: &mut Steps<L>,
) -> Result<(), NoMemory>
    requires good { IsGoodHit hit.now }
    requires kind { hit.now.row.before_kind ≢ 2 }
    requires room { HasRoom (image_of hit.now.view.now) marks.old.room }
    ensures grows { OnOk result (Grows (IsSpanOf hit.now) hit.now.greatest list.old.items list.new.items) }
    ensures room { marks.new.room ≡ marks.old.room }
    ensures least_cost { steps.old ≤ steps.new }
    ensures most_cost { steps.new ≤ steps.old + 3
        + 2 * (side_moves (image_of hit.now.view.now) hit.now.row.after_kind hit.now.row.after_place * (length hit.now.file.now + 1)) }
{
    let Some(start) = only_start(hit, steps) else {
        return Ok(());
    };
    let ends = ends_of(hit, marks, steps);
    add_match(hit, &ends, start, list, steps)
}

// The matches of the starts that the program before the atom finds.
fn add_starts<L: Ledger>(
    hit: &Hit<'_>,
    ends: &Ends,
    marks: &mut Marks,
    list: &mut Vec<(u32, u32)>,
    steps: &mut Steps<L>,
) -> Result<(), NoMemory>
    requires good { IsGoodHit hit.now }
    requires kind { hit.now.row.before_kind ≡ 2 }
    requires room { HasRoom (image_of hit.now.view.now) marks.old.room }
    requires ends { AreEnds hit.now ends.now }
    ensures grows { OnOk result (Grows (IsSpanOf hit.now) hit.now.greatest list.old.items list.new.items) }
    ensures room { marks.new.room ≡ marks.old.room }
    ensures least_cost { steps.old ≤ steps.new }
    ensures most_cost { steps.new ≤ steps.old
        + (moves_count (image_of hit.now.view.now) hit.now.row.before_place * (begin_of hit.now + 1) + (begin_of hit.now + 1)) }
{
    let begin = hit.at - hit.row.atom_length as usize;
    let rows = program(hit.view, hit.row.before_place);
    let mut walk = starts(rows, hit.file, begin as u32, marks);
    'falling: while let Some(start) = walk.next(marks, steps) {
        add_match(hit, ends, start as usize, list, steps)?;
    }
    Ok(())
}

// The matches of a hit whose side before the atom is a program.
fn add_from_program<L: Ledger>(
    hit: &Hit<'_>,
    marks: &mut Marks,
    list: &mut Vec<(u32, u32)>,
    steps: &mut Steps<L>,
) -> Result<(), NoMemory>
    requires good { IsGoodHit hit.now }
    requires kind { hit.now.row.before_kind ≡ 2 }
    requires room { HasRoom (image_of hit.now.view.now) marks.old.room }
    ensures grows { OnOk result (Grows (IsSpanOf hit.now) hit.now.greatest list.old.items list.new.items) }
    ensures room { marks.new.room ≡ marks.old.room }
    ensures least_cost { steps.old ≤ steps.new }
    ensures most_cost { steps.new ≤ steps.old + 1
        + 2 * (side_moves (image_of hit.now.view.now) hit.now.row.after_kind hit.now.row.after_place * (length hit.now.file.now + 1))
        + (moves_count (image_of hit.now.view.now) hit.now.row.before_place * (begin_of hit.now + 1) + (begin_of hit.now + 1)) }
{
    let ends = ends_of(hit, marks, steps);
    let Some(_) = ends.near else {
        return Ok(());
    };
    add_starts(hit, &ends, marks, list, steps)
}

/// The matches that a hit gives, one for each start that has an end, are added to a list.
pub fn add_matches<L: Ledger>(
    hit: &Hit<'_>,
    marks: &mut Marks,
    list: &mut Vec<(u32, u32)>,
    steps: &mut Steps<L>,
) -> Result<(), NoMemory>
    requires good { IsGoodHit hit.now }
    requires room { HasRoom (image_of hit.now.view.now) marks.old.room }
    ensures grows { OnOk result (Grows (IsSpanOf hit.now) hit.now.greatest list.old.items list.new.items) }
    ensures room { marks.new.room ≡ marks.old.room }
    ensures least_cost { steps.old ≤ steps.new }
    ensures most_cost { steps.new + 1 ≤ steps.old + hit_cost (image_of hit.now.view.now) (length hit.now.file.now) hit.now.row }
{
    if hit.row.before_kind == 2 {
        return add_from_program(hit, marks, list, steps);
    }
    add_from_place(hit, marks, list, steps)
}
