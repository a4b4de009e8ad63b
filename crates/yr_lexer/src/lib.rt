//! Rule files as tokens: the tokens of one text, and those of a file with all that it includes.
#![tactic(auto)]

mod fault;
mod frame;
mod gap;
mod gathering;
mod hex;
mod include;
mod laws;
mod lexing;
mod number;
mod reserved;
mod scan;
mod sign;
mod source;
mod text;
mod token;
mod tokens;

pub use fault::{GatherFault, LexFault};
pub use gathering::gather;
pub use laws::{each_text_has_a_meaning, each_text_has_an_answer, one_answer, one_meaning};
pub use lexing::lex;
pub use source::{FileToken, SourceFile};
pub use text::{has_good_escapes, unescape};
pub use token::{Token, TokenKind};
pub use tokens::Tokens;
