//! Arrays and their elements as texts.
#![tactic(auto)]

pub use text::{array_text, element_text};

#[cfg(test)]
mod tests;
mod text;
