//! How a request is to be answered: by which rule of import, and with how many cells in an array at most. What its keys `version`,
//! `rule` and `limit` say.
#![tactic(auto)]

pub use options::{Options, read_options};

mod options;
mod rule;
#[cfg(test)]
mod tests;
mod version;
