//! Texts between marks, as names and texts in quotes.
#![tactic(auto)]

pub use quoting::quoted;

mod quoting;
#[cfg(test)]
mod tests;
