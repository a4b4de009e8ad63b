//! What an image finds in a file with its own values of its externals.

ghost use Rattle.std.specs.Prelude.{◌≤◌, ◌^◌, IfOk, length};
ghost use Rattle.yr_answer.specs.Truths.{truths_shown};
ghost use Rattle.yr_preserves.specs.Preserves.{HaveKindsOf, IsTarget, externals_in};
ghost use Rattle.yr_machine.specs.Wellformed.{IsWellformed};
ghost use Rattle.yr_outcome.specs.Answers.{own_values};
ghost use Rattle.yr_scan.specs.Scanned.{IsScan};

use crate::valuing::values;
use crate::{Scan, are_bytes, scan_file};
use std::alloc::Global;
use yr_base::NoMemory;
use yr_machine::adopt;

/// What the image of wellformed bytes finds in a file of at most 268,435,456 bytes with its own values.
pub fn scan_own(alloc: Global, bytes: &[u8], file: &[u8]) -> Result<Scan, NoMemory>
    requires wellformed { IsWellformed bytes.now }
    requires small { length file.now ≤ 2 ^ 28 }
    ensures scan { IfOk result (λ scan. IsScan bytes.now file.now (own_values (externals_in bytes.now)) scan.matches.lists scan.matches.hits (truths_shown scan.truths.items)) }
    ensures target { IsTarget file.now }
    ensures kinds { IfOk result (λ scan. HaveKindsOf (externals_in bytes.now) (own_values (externals_in bytes.now))) }
{
    are_bytes(file);
    let image = adopt(bytes);
    let values = values(alloc, &image, &[])?;
    scan_file(alloc, &image, file, &values)
}
