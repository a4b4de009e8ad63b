//! Images that passed every check.

ghost use Rattle.yr_machine.specs.Wellformed.{IsWellformed};
ghost use Rattle.yr_machine.specs.Propositions.{wellformed-prop};

use yr_image::ImageView;

/// The bytes of a wellformed image, wherever they lie in a larger buffer.
#[derive(Clone, Copy, Debug)]
pub struct VerifiedImage<'a> {
    bytes: &'a [u8],
    ghost wellformed: { IsWellformed bytes.now } by { wellformed-prop bytes.now },
}

impl<'a> VerifiedImage<'a> {
    ghost use Rattle.std.specs.Prelude.{◌≡◌};
    ghost use Rattle.yr_image.specs.Views.{shown_bytes};
    ghost use Rattle.yr_machine.specs.Wellformed.{IsWellformed};
    ghost use Rattle.yr_machine.specs.Verified.{bytes_of};

    // The image that wellformed bytes are.
    pub(crate) fn over(bytes: &'a [u8]) -> VerifiedImage<'a>
        requires { IsWellformed bytes.now }
        ensures { bytes_of result ≡ bytes.now }
    {
        VerifiedImage { bytes }
    }

    /// The image's rows, read in place.
    pub fn view(&self) -> ImageView<'a>
        ensures bytes { shown_bytes result ≡ bytes_of self.now }
        ensures wellformed { IsWellformed (shown_bytes result) }
    {
        ImageView::over(self.bytes)
    }
}
