//! The ten checks of an image, in their order.

ghost use Rattle.std.specs.Prelude.{◌≡◌, ◌↔◌, IfOk, IfErr, IsOk};
ghost use Rattle.yr_machine.specs.Wellformed.{IsFirstFault, IsWellformed};
ghost use Rattle.yr_machine.specs.Verified.{bytes_of};
ghost use Rattle.yr_verifier.specs.Firsts.{Checked};

use crate::code::check_code;
use crate::header::check_header;
use crate::naming::check_names;
use crate::nodes::check_nodes;
use crate::programs::check_programs;
use crate::rows::check_rows;
use crate::sections::check_sections;
use yr_image::{ImageFault, ImageView};
use yr_machine::{VerifiedImage, adopt};

fn check(bytes: &[u8]) -> Result<(), ImageFault>
    ensures { Checked bytes.now 11 result }
{
    check_header(bytes)?;
    check_sections(bytes)?;
    let view = ImageView::over(bytes);
    check_rows(&view)?;
    check_names(&view)?;
    check_code(&view)?;
    check_programs(&view)?;
    check_nodes(&view)
}

/// The image that bytes are, or the first check that they fail with its numbers.
pub fn verify(bytes: &[u8]) -> Result<VerifiedImage<'_>, ImageFault>
    // Exactly wellformed bytes are one.
    ensures ok { IsOk result ↔ IsWellformed bytes.now }
    ensures image { IfOk result (λ image. bytes_of image ≡ bytes.now) }
    ensures fault { IfErr result (IsFirstFault bytes.now) }
{
    match check(bytes) {
        Ok(()) => Ok(adopt(bytes)),
        Err(fault) => Err(fault),
    }
}
