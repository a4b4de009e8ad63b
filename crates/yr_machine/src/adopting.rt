//! Images whose bytes are known to be wellformed.

ghost use Rattle.std.specs.Prelude.{◌≡◌};
ghost use Rattle.yr_machine.specs.Wellformed.{IsWellformed};
ghost use Rattle.yr_machine.specs.Verified.{bytes_of};

use crate::verified_image::VerifiedImage;

/// The image that wellformed bytes are, with no check of them.
pub fn adopt(bytes: &[u8]) -> VerifiedImage<'_>
    requires { IsWellformed bytes.now }
    ensures { bytes_of result ≡ bytes.now }
{
    VerifiedImage::over(bytes)
}
