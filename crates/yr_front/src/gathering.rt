//! All rule files, gathered in their order.

ghost use Rattle.std.specs.Prelude.{◌≡◌, ◌≤◌, ◌++◌, ◌∷◌, [], ℕ, List, Some, Ok, Err, IfErr, IfOk, OnOk, MatchResult, map, length};
ghost use Rattle.yr_base.specs.Store.{Files};
ghost use Rattle.yr_lexer.specs.Gathering.{FitsWalk, HasCause};
ghost use Rattle.yr_outcome.specs.Front.{Reading, IsReading, source_walk};
ghost use Rattle.yr_values.specs.Names.{NamedModule};
ghost use Rattle.yr_words.specs.Shown.{source_shown};
ghost use Rattle.yr_front.specs.Units.{unit_shown, AreGathered, FitsUngathered};
ghost use Rattle.yr_front.specs.declared.unit.SourceUnit.{SourceUnit};

use crate::unit::SourceUnit;
use std::alloc::Global;
use yr_base::Store;
use yr_lexer::{GatherFault, gather};
use yr_words::Source;

// Gathers one more rule file.
fn gather_next<'a, F: Store>(
    alloc: Global,
    source: Source<'a>,
    store: &mut F,
    units: &mut Vec<SourceUnit<'a>>,
) -> Result<(), GatherFault>
    ensures files { F.files store.new ≡ F.files store.old }
    ensures later { F.faults store.old ≤ F.faults store.new }
    ensures cause { IfErr result (λ why. HasCause why (F.faults store.old) (F.faults store.new)) }
    ensures spaces { OnOk result (map (λ u. u.space.now) units.new.items ≡ map (λ u. u.space.now) units.old.items ++ source.entry.space.now ∷ []) }
    ensures walk { (reading : Reading) → IsReading reading → (modules : List NamedModule) → (files : Files) → F.files store.old ≡ Some files
        → MatchResult result
        (λ _. (u : SourceUnit) × (units.new.items ≡ units.old.items ++ u ∷ []) × (u.space.now ≡ source.entry.space.now)
        × FitsWalk (source_walk reading modules files (source_shown source.entry)) (Ok u.tokens) (F.trace store.old) (F.trace store.new))
        (λ why. FitsWalk (source_walk reading modules files (source_shown source.entry)) (Err why) (F.trace store.old) (F.trace store.new)) }
{
    let tokens = gather(alloc, store, source.file)?;
    units.push(SourceUnit {
        space: source.space,
        tokens,
    })?;
    Ok(())
}

/// Gathers all rule files.
pub fn gather_all<'a, F: Store>(
    alloc: Global,
    sources: &[Source<'a>],
    store: &mut F,
) -> Result<Vec<SourceUnit<'a>>, GatherFault>
    ensures files { F.files store.new ≡ F.files store.old }
    ensures later { F.faults store.old ≤ F.faults store.new }
    ensures cause { IfErr result (λ why. HasCause why (F.faults store.old) (F.faults store.new)) }
    ensures spaces { IfOk result (λ units. map (λ u. u.space.now) units.items ≡ map (λ s. s.space.now) sources.now) }
    ensures walk { (reading : Reading) → IsReading reading → (modules : List NamedModule) → (files : Files) → F.files store.old ≡ Some files
        → MatchResult result
        (λ units. AreGathered reading modules files (map source_shown sources.now) (map unit_shown units.items) (F.trace store.old) (F.trace store.new))
        (λ why. FitsUngathered reading modules files (map source_shown sources.now) why (F.trace store.old) (F.trace store.new)) }
{
    let mut units = Vec::new(alloc);
    for source in sources {
        gather_next(alloc, *source, store, &mut units)?;
    }
    Ok(units)
}
