//! Calls: the kinds of functions that a call may be of, and a count, without bytes, of how often a table of kinds was asked.
#![tactic(auto)]

pub use function::Function;
pub use steps::{Plain, Steps};

mod count;
mod function;
mod steps;
#[cfg(test)]
mod tests;
