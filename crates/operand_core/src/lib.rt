//! What an operand counts as: the casts of elements and values, a rule over each element, and sides that are repeated.
#![tactic(auto)]

pub use cast::{cast_to_bool, cast_to_number, cast_to_string};
pub use each::{ElementRule, each_of};
pub use side::Side;
pub use value_cast::{cast_value_to_bool, cast_value_to_number, cast_value_to_string};

mod cast;
mod each;
mod side;
#[cfg(test)]
mod tests;
mod value_cast;
