//! Array functions that keep some elements of a rectangle in their order: UNIQUE, FILTER, TOCOL and TOROW, and TRIMRANGE.
#![tactic(auto)]

pub use filtering::{Filtered, filter};
pub use flattening::flatten;
pub use laws::{columns_are_the_rows_of_the_transposed, what_is_unique_stays};
pub use trimming::trim;
pub use uniqueness::unique;

mod filtering;
mod flattening;
mod laws;
mod lines;
mod modes;
mod part;
mod strip;
#[cfg(test)]
mod tests;
mod trimming;
mod uniqueness;
