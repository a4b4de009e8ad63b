//! The three shapes of an automaton, in their order.

ghost use Rattle.std.specs.Prelude.{◌≡◌, IsOk, IfOk, IfErr};
ghost use Rattle.yr_image.specs.Reading.{image_in};
ghost use Rattle.yr_machine.specs.Verified.{bytes_of};
ghost use Rattle.yr_cert.specs.Certificates.{certified_bytes};
ghost use Rattle.yr_cert.specs.Faults.{IsFirstCertFault};
ghost use Rattle.yr_cert.specs.Shape.{IsTrie};
ghost use Rattle.yr_cert.specs.Words.{IsCertified};

use crate::certified_image::CertifiedImage;
use crate::fault::CertFault;
use crate::housing::{doubled, homes_of};
use crate::linking::misled;
use crate::reaching::{orphan, parents_of};
use crate::trie::trie_of;
use std::alloc::Global;
use yr_machine::VerifiedImage;

/// The certified image, or the first shape that the image has not, at its least number.
pub fn certify<'a>(
    alloc: Global,
    image: &VerifiedImage<'a>,
) -> Result<CertifiedImage<'a>, CertFault>
    ensures image { IfOk result (λ certified. certified_bytes certified ≡ bytes_of image.now) }
    // With `fault`: exactly the images with the three shapes are certified, if memory is enough.
    ensures shape { IsOk result → IsTrie (image_in (bytes_of image.now)) }
    ensures fault { IfErr result (IsFirstCertFault (image_in (bytes_of image.now))) }
    // Each front of each file is hit by exactly the splits in a word of which it ends.
    ensures certified { IsOk result → IsCertified (image_in (bytes_of image.now)) }
{
    let view = image.view();
    let trie = trie_of(&view);
    let parents = parents_of(alloc, &trie)?;
    if let Some(n) = orphan(&trie, &parents) {
        return Err(CertFault::Parent(n));
    }
    if let Some(n) = misled(&trie, &parents) {
        return Err(CertFault::Link(n));
    }
    let homes = homes_of(alloc, &trie, &parents)?;
    if let Some(split) = doubled(&trie, &homes) {
        return Err(CertFault::Twice(split));
    }
    Ok(CertifiedImage::over(*image, homes))
}
