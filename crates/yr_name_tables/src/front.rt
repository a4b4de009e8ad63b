//! Names that begin with one of many fronts.

ghost use Rattle.std.specs.Prelude.{◌≡◌};
ghost use Rattle.yr_name_tables.specs.Names as spec;

use crate::numbered::Numbered;

/// Whether the name begins with one of the fronts: whether one of its beginnings is a front.
#[tactic(auto, using(crate::proofs::FrontLemmas::front_there))]
pub fn has_front(fronts: &Numbered<'_>, name: &[u8]) -> bool
    ensures { result ≡ spec.has_front fronts.now name.now }
{
    for size in 0..name.len() {
        if fronts.has(&name[..size]) {
            return true;
        }
    }
    fronts.has(name)
}
