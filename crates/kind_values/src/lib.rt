//! The values of calls: thirteen kinds of functions, each by its row, over the values of their arguments.
#![tactic(auto)]

pub use by_row::kind_value;
pub use laws::kind_values_fit;
pub use value_rule::ValueRule;

mod by_row;
mod conditional;
mod counting;
mod laws;
mod number_rule;
mod reckoning;
mod row;
#[cfg(test)]
mod tests;
mod value_rule;
