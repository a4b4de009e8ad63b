//! The search of a file for the strings of an image.

ghost use Rattle.std.specs.Prelude.{◌≡◌, ◌+◌, ◌^◌, ◌≤◌, length, IfOk};
ghost use Rattle.yr_image.specs.Reading.{image_in};
ghost use Rattle.yr_machine.specs.Budget.{search_budget};
ghost use Rattle.yr_machine.specs.Verified.{bytes_of};
ghost use Rattle.yr_search.specs.FoundIn.{IsFoundIn};
ghost use Rattle.yr_search.specs.Scratches.{IsScratchFor};

use crate::gathering::{nothing, settle_all, take_all, take_later};
use crate::scene::scene_of;
use crate::scratch::Scratch;
use std::alloc::Global;
use std::sync::ledger::Ledger;
use yr_answer::Matches;
use yr_base::{NoMemory, Steps};
use yr_machine::VerifiedImage;

/// The match lists of the image's strings in the file, and the number of its hits.
pub fn search<L: Ledger>(
    alloc: Global,
    image: &VerifiedImage<'_>,
    file: &[u8],
    scratch: &mut Scratch,
    steps: &mut Steps<L>,
) -> Result<Matches, NoMemory>
    requires scratch { IsScratchFor (bytes_of image.now) scratch.old }
    requires small { length file.now ≤ 2 ^ 28 }
    ensures found { IfOk result (IsFoundIn (image_in (bytes_of image.now)) file.now) }
    ensures least_cost { IfOk result (λ found. steps.old + found.hits ≤ steps.new) }
    ensures most_cost { steps.new ≤ steps.old + search_budget (image_in (bytes_of image.now)) (length file.now) }
    ensures scratch { IsScratchFor (bytes_of image.now) scratch.new }
{
    let view = image.view();
    let scene = scene_of(&view, file);
    let mut gathered = nothing(alloc, &scene)?;
    let hits = take_all(
        &scene,
        &scratch.skips,
        &mut scratch.marks,
        &mut gathered,
        steps,
    )?;
    take_later(alloc, &scene, &mut scratch.marks, &mut gathered, steps)?;
    settle_all(&scene, &mut gathered.lists);
    Ok(Matches::new(gathered.lists, hits))
}
