//! Names, asked for what items mean.

ghost use Rattle.std.specs.Prelude.{◌≡◌, IfOk, OnOk, true, if◌then◌else◌};
ghost use Rattle.std.specs.List.{list_any};
ghost use Rattle.yr_name_tables.specs.Names as spec;
ghost use Rattle.yr_name_tables.specs.Places.{with_name};
ghost use Rattle.yr_checking.specs.Known.{AreMet, MeetsFronts};

use std::alloc::Global;
use yr_base::NoMemory;
use yr_name_tables::{Numbered, Table};

/// So many fronts are compared with one name after another: a name may have 129 beginnings, and it is compared with eight
/// fronts in the time in which one of them is looked up.
const FEW: usize = 1024;

/// Names, and fronts that were looked for among them.
///
/// Where the names are in order, a front is looked up among them. Elsewhere one that no name begins with, or only the last
/// one, is compared with all of them. So that a condition with many fronts does not take their number times that of the
/// names, they are looked for in one walk over the names.
#[derive(Drop)]
pub struct Known<'c, 'n, 'f> {
    names: &'c Numbered<'n>,
    fronts: Numbered<'f>,
    /// Those of the fronts that a name begins with.
    met: Table<'n>,
    ghost found: { AreMet fronts names.now met },
}

/// Adds a beginning of a name, where it is one of the fronts.
fn add_beginning<'n>(
    fronts: &Numbered<'_>,
    beginning: &'n [u8],
    met: &mut Table<'n>,
) -> Result<(), NoMemory>
    ensures { OnOk result (met.new ≡ (if spec.has beginning.now fronts.now then with_name beginning.now met.old else met.old)) }
{
    if fronts.has(beginning) {
        met.add(beginning)?;
    }
    Ok(())
}

/// Adds the fronts that a name begins with.
#[tactic(auto, using(crate::proofs::KnownLemmas::none_below, crate::proofs::KnownLemmas::one_more_below, crate::proofs::KnownLemmas::all_below))]
fn add_fronts<'n>(
    fronts: &Numbered<'_>,
    name: &'n [u8],
    met: &mut Table<'n>,
) -> Result<(), NoMemory>
    ensures { OnOk result (MeetsFronts fronts.now name.now met.old met.new) }
{
    for size in 0..name.len() + 1 {
        add_beginning(fronts, &name[..size], met)?;
    }
    Ok(())
}

/// The fronts that one of the names begins with.
#[tactic(auto, using(crate::proofs::KnownLemmas::none_met, crate::proofs::KnownLemmas::one_more_name, crate::proofs::KnownLemmas::all_names))]
fn met_fronts<'n>(
    alloc: Global,
    fronts: &Numbered<'_>,
    names: &Numbered<'n>,
) -> Result<Table<'n>, NoMemory>
    ensures { IfOk result (λ met. AreMet fronts.now names.now met) }
{
    let mut met = Table::new(alloc);
    for number in 0..names.len() {
        add_fronts(fronts, names.name(number), &mut met)?;
    }
    Ok(met)
}

impl<'c, 'n, 'f> Known<'c, 'n, 'f> {
    /// Looks for the fronts, if they are many and the names are in no order.
    #[tactic(auto, using(crate::proofs::KnownLemmas::no_fronts))]
    pub fn new(
        alloc: Global,
        names: &'c Numbered<'n>,
        fronts: Numbered<'f>,
    ) -> Result<Known<'c, 'n, 'f>, NoMemory>
        ensures { IfOk result (λ k. k.names.now ≡ names.now) }
    {
        if fronts.len() <= FEW || names.is_sorted() {
            return Ok(Known {
                names,
                fronts: Numbered::new(alloc),
                met: Table::new(alloc),
            });
        }
        let met = met_fronts(alloc, &fronts, names)?;
        Ok(Known { names, fronts, met })
    }

    pub fn has(&self, name: &[u8]) -> bool
        ensures { result ≡ spec.has name.now self.now.names.now }
    {
        self.names.has(name)
    }

    /// Whether one of the names begins so.
    #[tactic(auto, using(crate::proofs::KnownLemmas::known_front))]
    fn begins_some(&self, front: &[u8]) -> bool
        ensures { result ≡ list_any (spec.means front.now true) self.now.names.now }
    {
        if self.fronts.has(front) {
            self.met.has(front)
        } else {
            self.names.begins_some(front)
        }
    }

    /// Whether an item means one of the names.
    #[tactic(auto, using(crate::proofs::MeansLemmas::means_front, crate::proofs::MeansLemmas::means_whole))]
    pub fn means_some(&self, item: &[u8], wild: bool) -> bool
        ensures { result ≡ spec.means_some item.now wild self.now.names.now }
    {
        if wild {
            self.begins_some(item)
        } else {
            self.has(item)
        }
    }
}
