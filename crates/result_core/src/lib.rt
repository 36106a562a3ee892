//! What a part of a formula comes to: in context and with reference, as a value, as a rectangle, as a single value that is cast.
#![tactic(auto)]

pub use array::array_of;
pub use found::{Found, of_value, result_of, value_of, wrong};
pub use intersection::intersection_found;
pub use single::{bool_found, number_found, range_found, string_found};
pub use span::{range_between, span_of};

mod array;
mod found;
mod intersection;
mod single;
mod span;
#[cfg(test)]
mod tests;
