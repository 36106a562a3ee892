//! References as texts, read: cells and ranges by letters and digits, or by the numbers of rows and columns.
#![tactic(auto)]

pub use reading::{read_a1, read_r1c1};

mod a1;
mod r1c1;
mod reading;
mod sheet;
mod spot;
#[cfg(test)]
mod tests;
