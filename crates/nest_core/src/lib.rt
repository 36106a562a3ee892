//! Plain nests: ranges, array literals and calls that move elements, of which one element is found without the whole.
#![tactic(auto)]

pub use asked::arguments_refused;
pub use plain::{arrays_of, is_nest_kind, is_plain_nest};
pub use plain_nest::PlainNest;

mod asked;
mod building;
mod casts;
mod element;
mod nest;
mod plain;
mod plain_nest;
mod reading;
mod sequence;
#[cfg(test)]
mod tests;
