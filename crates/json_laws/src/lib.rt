//! A law of the JSON form of a formula: what is written of a formula is read as it.
#![tactic(auto)]

pub use laws::written_formula_reads_back;

mod laws;
#[cfg(test)]
mod tests;
