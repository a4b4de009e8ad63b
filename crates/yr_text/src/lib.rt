//! The modifiers of a string, and the variants of a text string.
#![tactic(auto)]

mod adding;
mod alphabet;
mod checking;
mod encoding;
mod fault;
mod form;
mod keys;
pub mod laws;
mod modifiers;
mod name;
mod variants_of_text;

pub use checking::check_modifiers;
pub use fault::ModifierFault;
pub use modifiers::Modifiers;
pub use variants_of_text::variants;
pub use yr_pattern::{Border, Variant, VariantBody};
pub use yr_syntax::{Modifier, StringKind};
