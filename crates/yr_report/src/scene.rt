//! What a report is made of.

use yr_answer::{Matches, ReportOptions};
use yr_base::Truth;
use yr_image::ImageView;

/// An image, the matches of its strings, the truths of its rules, and what is asked for.
#[derive(Drop)]
pub struct Scene<'a, 'w> {
    pub view: ImageView<'a>,
    pub matches: &'w Matches,
    pub results: &'w [Truth],
    pub options: ReportOptions,
    pub target: &'w [u8],
}
