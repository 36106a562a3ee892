//! Formulas written in words, for tests of crates above the tree.
//!
//! - `words`: the formula of some words.
//! - `samples`: single nodes.
#![tactic(auto)]

pub use samples::{cell, range};
pub use words::{WordsError, formula};

mod samples;
mod words;
