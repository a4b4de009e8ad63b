//! What a search keeps from file to file.

ghost use Rattle.std.specs.Prelude.{IfOk};
ghost use Rattle.yr_machine.specs.Verified.{bytes_of};

use crate::scene::scene_of;
use crate::skipping::skips_of;
use crate::skips::Skips;
use std::alloc::Global;
use yr_base::NoMemory;
use yr_hits::most_moves;
use yr_machine::VerifiedImage;
use yr_moves::Marks;

/// What the search and the machine of an image work with. It is made once, and serves any number of files.
#[derive(Drop)]
pub struct Scratch {
    /// Room for the moves of each program of the image.
    pub marks: Marks,
    pub(crate) skips: Skips,
}

impl Scratch {
    ghost use Rattle.yr_search.specs.Scratches.{IsScratchFor};

    pub fn for_image(alloc: Global, image: &VerifiedImage<'_>) -> Result<Scratch, NoMemory>
        ensures { IfOk result (IsScratchFor (bytes_of image.now)) }
    {
        let view = image.view();
        let marks = Marks::for_moves(alloc, most_moves(&view))?;
        let skips = skips_of(alloc, &scene_of(&view, &[]))?;
        Ok(Scratch { marks, skips })
    }
}
