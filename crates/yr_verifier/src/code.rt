//! The check of the code of each rule.

ghost use Rattle.std.specs.Prelude.{◌<◌, length};
ghost use Rattle.yr_image.specs.Views.{image_of, shown_bytes};
ghost use Rattle.yr_machine.specs.Wellformed.{CodePasses};
ghost use Rattle.yr_verifier.specs.Blocks.{AreMost};
ghost use Rattle.yr_verifier.specs.Firsts.{Finds, Reaches, Checked};

use crate::counting::count_rules;
use crate::{Code, Lists, Walk, code_fault};
use yr_image::{ImageFault, ImageView};

// The first place of a rule's code that is not wellformed.
fn bad_place(walk: &mut Walk, view: &ImageView, lists: &Lists, rule: u32) -> Option<u32>
    requires most { AreMost (image_of view.now) lists.now }
    requires there { rule < length (image_of view.now).rules }
    ensures { Finds (λ place. CodePasses (image_of view.now) rule place) result }
{
    let row = view.rule(rule);
    let code = Code::of(*view, rule, row.first_code, row.code_rows);
    code_fault(walk, &code, lists)
}

/// The eighth check.
pub fn check_code(view: &ImageView) -> Result<(), ImageFault>
    requires { Reaches (shown_bytes view.now) 8 0 }
    ensures { Checked (shown_bytes view.now) 9 result }
{
    let mut walk = Walk::new();
    let lists = Lists::of(view);
    for rule in 0..count_rules(view) {
        match bad_place(&mut walk, view, &lists, rule) {
            Some(place) => return Err(ImageFault::Code(rule, place)),
            None => {}
        }
    }
    Ok(())
}
