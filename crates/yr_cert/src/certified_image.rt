//! Certified images.

ghost use Rattle.yr_image.specs.Reading.{image_in};
ghost use Rattle.yr_machine.specs.Verified.{bytes_of};
ghost use Rattle.yr_cert.specs.Kept.{Keeps};
ghost use Rattle.yr_cert.specs.Propositions.{keeps-prop};

use crate::home::Home;
use yr_base::Atom;
use yr_machine::VerifiedImage;

/// An image whose automaton has the shape of a trie, with the words of its splits.
#[derive(Drop)]
pub struct CertifiedImage<'a> {
    image: VerifiedImage<'a>,
    homes: Vec<Home>,
    ghost keeps: { Keeps (image_in (bytes_of image)) homes.items } by { keeps-prop (image_in (bytes_of image)) homes.items },
}

impl<'a> CertifiedImage<'a> {
    ghost use Rattle.std.specs.Prelude.{◌≡◌, ◌↔◌, ◌<◌, length, None, IfSome};
    ghost use Rattle.yr_image.specs.Reading.{image_in};
    ghost use Rattle.yr_machine.specs.Verified.{bytes_of};
    ghost use Rattle.yr_cert.specs.Kept.{Keeps};
    ghost use Rattle.yr_cert.specs.Shape.{IsTrie};
    ghost use Rattle.yr_cert.specs.Words.{IsCertified};
    ghost use Rattle.yr_cert.specs.Certificates.{certified_bytes, certified_image, HasNoWord, IsAtomOf};

    // The image, with what is noted of its splits.
    pub(crate) fn over(image: VerifiedImage<'a>, homes: Vec<Home>) -> CertifiedImage<'a>
        requires { Keeps (image_in (bytes_of image)) homes.items }
        ensures { certified_bytes result ≡ bytes_of image.entry }
    {
        CertifiedImage { image, homes }
    }

    /// The image.
    pub fn image(&self) -> &VerifiedImage<'a>
        ensures bytes { bytes_of result.now ≡ certified_bytes self.now }
        ensures shape { IsTrie (certified_image self.now) }
        // Each front of each file is hit by exactly the splits in a word of which it ends.
        ensures certified { IsCertified (certified_image self.now) }
    {
        &self.image
    }

    /// The word of a split: that of the node with its output row, if it has one.
    pub fn word(&self, split: u32) -> Option<Atom>
        requires { split < length (certified_image self.now).splits }
        // It is None exactly where the split has no output row.
        ensures none { result ≡ None ↔ HasNoWord (certified_image self.now) split }
        ensures word { IfSome result (IsAtomOf (certified_image self.now) split) }
    {
        match self.homes[split as usize] {
            Home::OneOutput(atom) => Some(atom),
            _ => None,
        }
    }
}
