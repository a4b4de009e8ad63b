//! The kinds and the weights of checked conditions, and the weights of what rules are made of.
#![tactic(auto)]

mod loops;
mod node_kind;
mod node_weight;
mod operator_kind;
mod prefixes;
mod rule_weight;

pub use node_kind::{condition_kind, external_kind};
pub use node_weight::condition_weight;
pub use rule_weight::{externals_weight, meta_weight, string_weight, strings_weight, tags_weight};
