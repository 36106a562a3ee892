//! A law of the functions of references: their answers fit the shapes of their calls.
#![tactic(auto)]

pub use laws::reference_answers_fit;

mod laws;
#[cfg(test)]
mod tests;
