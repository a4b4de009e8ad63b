//! What is gathered of all strings: nothing at first, then the matches of all hits, then settled.

ghost use Rattle.std.specs.Prelude.{◌≡◌, ◌+◌, ◌*◌, ◌≤◌, [], All, length, IfOk, OnOk};
ghost use Rattle.yr_image.specs.Views.{image_of};
ghost use Rattle.yr_answer.specs.Found.{items_of};
ghost use Rattle.yr_hits.specs.Programs.{HasRoom};
ghost use Rattle.yr_search.specs.State.{state_of, hits_in, IsFor, IsEmpty, owed};
ghost use Rattle.yr_search.specs.Taking.{IsGoodScene, TakesLater};
ghost use Rattle.yr_search.specs.Skips.{AreSkips};
ghost use Rattle.yr_search.specs.Walked.{front_cost};
ghost use Rattle.yr_search.specs.FoundIn.{AreTaken, AreSettled, AreAllShort};

use crate::gathered::Gathered;
use crate::leaving::take_left;
use crate::scene::Scene;
use crate::settling::settle;
use crate::skips::Skips;
use crate::walking::{take_root, walk};
use std::alloc::Global;
use std::sync::ledger::Ledger;
use yr_base::{NoMemory, Steps};
use yr_moves::Marks;

// Lists with nothing in them.
fn empty_lists<T: Drop>(alloc: Global, count: u32) -> Result<Vec<Vec<T>>, NoMemory>
    ensures count { IfOk result (λ lists. length lists.items ≡ count) }
    ensures empty { IfOk result (λ lists. All (λ list. list.items ≡ []) lists.items) }
{
    let mut lists = Vec::new(alloc);
    for k in 0..count {
        lists.push(Vec::new(alloc))?;
    }
    Ok(lists)
}

/// A list for each string and each split, with nothing in it.
pub(crate) fn nothing(alloc: Global, scene: &Scene<'_>) -> Result<Gathered, NoMemory>
    requires { IsGoodScene scene.now }
    ensures fits { IfOk result (IsFor (image_of scene.now.view.now) scene.now.file.now) }
    ensures empty { IfOk result (λ gathered. IsEmpty (image_of scene.now.view.now) (state_of gathered)) }
{
    let strings = scene.view.rows(3);
    let splits = scene.view.rows(4);
    let lists = empty_lists(alloc, strings)?;
    let later = empty_lists(alloc, splits)?;
    let spent = vec![in alloc; 0; splits as usize]?;
    Ok(Gathered {
        lists,
        later,
        spent,
    })
}

/// Takes all hits of the image in the file, and says how many there are.
pub(crate) fn take_all<L: Ledger>(
    scene: &Scene<'_>,
    skips: &Skips,
    marks: &mut Marks,
    gathered: &mut Gathered,
    steps: &mut Steps<L>,
) -> Result<u64, NoMemory>
    requires scene { IsGoodScene scene.now }
    requires skips { AreSkips (image_of scene.now.view.now) skips.now }
    requires room { HasRoom (image_of scene.now.view.now) marks.old.room }
    requires gathered { IsFor (image_of scene.now.view.now) scene.now.file.now gathered.old }
    ensures taken { IfOk result (λ count. AreTaken (image_of scene.now.view.now) scene.now.file.now
        (state_of gathered.old) (state_of gathered.new) count) }
    ensures room { marks.new.room ≡ marks.old.room }
    ensures gathered { OnOk result (IsFor (image_of scene.now.view.now) scene.now.file.now gathered.new) }
    ensures least_cost { IfOk result (λ count. steps.old + count ≤ steps.new) }
    ensures most_cost { steps.new + owed (image_of scene.now.view.now) (length scene.now.file.now) (state_of gathered.new)
        ≤ steps.old + owed (image_of scene.now.view.now) (length scene.now.file.now) (state_of gathered.old)
        + 5 * (length scene.now.file.now + 1)
        + (length scene.now.file.now + 1) * front_cost (image_of scene.now.view.now) (length scene.now.file.now) }
{
    let root = take_root(scene, marks, gathered, steps)?;
    let others = walk(scene, skips, marks, gathered, steps)?;
    Ok(root + others)
}

/// Takes the hits that were left for later.
pub(crate) fn take_later<L: Ledger>(
    alloc: Global,
    scene: &Scene<'_>,
    marks: &mut Marks,
    gathered: &mut Gathered,
    steps: &mut Steps<L>,
) -> Result<(), NoMemory>
    requires scene { IsGoodScene scene.now }
    requires room { HasRoom (image_of scene.now.view.now) marks.old.room }
    requires gathered { IsFor (image_of scene.now.view.now) scene.now.file.now gathered.old }
    ensures takes { OnOk result (TakesLater (image_of scene.now.view.now) scene.now.file.now 0 (hits_in gathered.old.later.items)
        (items_of gathered.old.lists.items) (items_of gathered.new.lists.items)) }
    ensures room { marks.new.room ≡ marks.old.room }
    ensures lists { length gathered.new.lists.items ≡ length gathered.old.lists.items }
    ensures least_cost { steps.old ≤ steps.new }
    ensures most_cost { steps.new ≤ steps.old + owed (image_of scene.now.view.now) (length scene.now.file.now) (state_of gathered.old) }
{
    'taking: while let Some(hits) = gathered.later.pop() {
        let split = gathered.later.len() as u32;
        take_left(alloc, scene, split, hits, marks, &mut gathered.lists, steps)?;
    }
    Ok(())
}

/// Settles each list, by whether its string asks for the longest match or the shortest.
pub(crate) fn settle_all(scene: &Scene<'_>, lists: &mut Vec<Vec<(u32, u32)>>)
    requires scene { IsGoodScene scene.now }
    requires lists { length lists.old.items ≡ length (image_of scene.now.view.now).strings }
    requires short { AreAllShort lists.old.items }
    ensures lists { length lists.new.items ≡ length lists.old.items }
    ensures settled { AreSettled (image_of scene.now.view.now) scene.now.file.now lists.old.items lists.new.items }
{
    for k in 0..scene.view.rows(3) {
        let flags = scene.view.string(k).flags;
        settle(&mut lists[k as usize], flags / 2 % 2 == 1);
    }
}
