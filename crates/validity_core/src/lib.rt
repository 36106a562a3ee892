//! Whether a formula can be evaluated: each of its nodes means something on the sheets of a book, by the table of kinds.
#![tactic(auto)]

pub use good::is_array;
pub use place::{Place, bad_place};

mod good;
mod place;
mod scan;
#[cfg(test)]
mod tests;
