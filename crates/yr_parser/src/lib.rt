//! Declarations and conditions, read from gathered tokens by the published grammar.
#![tactic(auto)]

mod answering;
mod arithmetic;
mod cursor;
mod depth;
mod fault;
mod grammar;
mod laws;
mod level;
mod lexeme;
mod links;
mod making;
mod many;
mod metadata;
mod modifiers;
mod parsing;
mod path;
mod place;
mod prefix;
mod primary;
mod reading;
mod rules;
mod sets;
mod sign;
mod spelling;
mod strings;
mod test;

pub use answering::tokens_have_an_answer;
pub use fault::ParseFault;
pub use laws::{all_have_terminals, one_answer, small_conditions, unescaped_texts};
pub use parsing::parse;
