//! The kinds with rules of their own: each call goes to its function.
#![tactic(auto)]

pub use own::{own_found, own_result};

mod own;
#[cfg(test)]
mod tests;
