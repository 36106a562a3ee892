//! Workbooks of values: what a book holds, reading a cell and a range of it, and the cell of a range that `@` finds.
#![tactic(auto)]

pub use book::{Book, Reads};
pub use cells::MemoryBook;
pub use meeting::implicit_intersection;
pub use range::{grid_of_range, line_count};

mod book;
mod cells;
mod held;
mod meeting;
mod memory_book;
mod range;
#[cfg(test)]
mod tests;
