//! What the words of a condition mean, what it uses, the condition with a number for each name, and what its sets
//! weigh.
#![tactic(auto)]

mod around;
mod laws;
mod making;
mod meaning;
mod module;
mod naming;
mod node_of_condition;
mod node_prefix;
mod path;
mod reading;
mod scopes;
mod sets_of_condition;
mod use_prefix;
mod uses;
mod uses_of_condition;
mod valued;
mod weight_prefix;
mod word;

pub use around::Around;
pub use laws::lower_bound;
pub use meaning::{Index, Meaning, then_call, then_index, then_name};
pub use module::find_module;
pub use naming::set_size;
pub use node_of_condition::condition_node;
pub use path::{count, opened, path_meaning, then_step};
pub use reading::{HexAnswer, RegexAnswer, hex_answer, regex_answer};
pub use scopes::{Scope, Scopes};
pub use sets_of_condition::sets_weight;
pub use use_prefix::behind_prefixes;
pub use uses::{Use, Uses};
pub use uses_of_condition::condition_uses;
pub use word::{earlier_rule, word_meaning};
