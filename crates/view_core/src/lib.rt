//! One element of a formula's value without the whole, and an evaluator that makes no array which is only moved.
//!
//! - `compiling`, `constant`: the nest that a formula is, if it is a plain one.
//! - `evaluator`: the calls of an evaluator.
//! - `element`: one element of a formula's value.
#![tactic(auto)]

pub use element::value_at;
pub use evaluator::ViewEvaluator;

mod compiling;
mod constant;
mod element;
mod evaluator;
#[cfg(test)]
mod tests;
