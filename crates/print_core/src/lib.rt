//! The answer to a formula, and the line in which it is written, straight from its trees: no JSON value in between. The line of
//! one value.
//!
//! - `answer`: `Answer`, and its line; the line of its two formulas alone; `shape`: the text of a shape.
//! - `value`: the line of one value.
#![tactic(auto)]

pub use answer::{Answer, answer_line, formulas_line};
pub use value::value_line;

mod answer;
mod shape;
#[cfg(test)]
mod tests;
mod value;
