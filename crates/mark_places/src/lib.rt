//! The marks of a formula beside the formula: which of its `@`s are to be tried, and the formula without those that went.
//!
//! - `listing`: the places whose `@` may go.
//! - `left`: the formula that marks tell of.
//! - `laws`: that the candidates are all that can go, and how many they are.
#![tactic(auto)]

pub use laws::{candidates_are_few, candidates_suffice};
pub use left::left_of;
pub use listing::candidates;

mod laws;
mod left;
mod listing;
#[cfg(test)]
mod tests;
