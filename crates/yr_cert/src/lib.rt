//! Certified automata: images whose hits are exactly the ends of their splits' words.
#![tactic(auto)]

mod certified_image;
mod certifying;
mod fault;
mod home;
mod housing;
pub mod laws;
mod linking;
mod parent;
mod reaching;
mod spelling;
#[cfg(test)]
mod tests;
mod trie;

pub use certified_image::CertifiedImage;
pub use certifying::certify;
pub use fault::CertFault;
