//! The check of a rule's code.

ghost use Rattle.std.specs.Prelude.{◌≡◌};
ghost use Rattle.yr_machine.specs.CodeWalk.{code_fault};
ghost use Rattle.yr_verifier.specs.Blocks.{AreMost};
ghost use Rattle.yr_verifier.specs.Rows.{rows_shown, image_shown};

use crate::lists::Lists;
use crate::rule_code::Code;
use crate::walk::{Pass, Walk};

/// The first place of the code that is not wellformed, None where all is. The walk is room that checks share.
pub fn code_fault(walk: &mut Walk, code: &Code, lists: &Lists) -> Option<u32>
    requires { AreMost (image_shown code.now) lists.now }
    ensures { result ≡ code_fault (image_shown code.now) code.now.rule (rows_shown code.now) }
{
    walk.clear();
    let count = code.count();
    for place in 0..count {
        match walk.pass(code, place, place + 1 == count, &code.row(place), lists) {
            Pass::Fails => return Some(place),
            Pass::Finished => return None,
            Pass::GoesOn => {}
        }
    }
    Some(count)
}
