//! The trees of rule files: imports, rules, strings, modifiers and conditions.
#![tactic(auto)]

mod condition;
mod declaration;
mod laws;
mod modifier;
mod operator;
mod string;

pub use condition::{Cond, Link, Over, PathStep, Place, Quant, Range, SetItem, SetRef};
pub use declaration::{Decl, Meta, MetaValue, Rule};
pub use laws::heights;
pub use modifier::{Modifier, StringKind};
pub use operator::{Infix, PrefixOp, Reader};
pub use string::{RegexText, StringBody, StringDecl};
