//! References by numbers: which rows and columns two numbers name, a range so many rows and columns from another, and how large
//! a range is. No call takes memory.
#![tactic(auto)]

pub use extent::{columns_of, rows_of};
pub use offset::offset_of;
pub use selection::{Selection, index_of};

mod extent;
mod offset;
mod selection;
#[cfg(test)]
mod tests;
