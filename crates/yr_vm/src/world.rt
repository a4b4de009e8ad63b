//! What code looks at.

use yr_answer::Matches;
use yr_base::Value;
use yr_image::ImageView;
use yr_values::Modules;

/// What the code of an image looks at: the image, the matches of its strings, the file, the values of its external
/// variables, and its modules.
#[derive(Drop)]
pub struct World<'a, 'w, M: Modules> {
    pub image: ImageView<'a>,
    pub matches: &'w Matches,
    pub file: &'a [u8],
    pub externals: &'w [Value<'a>],
    pub modules: &'a M,
}
