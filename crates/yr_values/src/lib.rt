//! The values of conditions, their operators, and where modules' values come from.
#![tactic(auto)]

mod comparison;
mod folded;
pub mod laws;
mod modules;
mod names;
mod number;
mod operand;
mod quantifier;
mod reader;
mod text;

pub use comparison::{
    at_least, at_most, contrary, definedness, equal, greater, holds, less, unequal,
};
pub use modules::Modules;
pub use names::{Module, ModuleEntry, ModuleNames, ModuleRow};
pub use number::{
    bit_and, bit_or, bit_xor, complement, difference, left_shift, negation, product, quotient,
    remainder, right_shift, sum,
};
pub use quantifier::Quantifier;
pub use reader::{
    int8, int8be, int16, int16be, int32, int32be, uint8, uint8be, uint16, uint16be, uint32,
    uint32be,
};
pub use text::{contains, endswith, icontains, iendswith, iequals, istartswith, startswith};
