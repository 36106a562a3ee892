//! Operators over values, the order of elements, and what nodes evaluate to. What they stand on is handed on.
#![tactic(auto)]

pub use book_core::{Book, MemoryBook, Reads, grid_of_range, line_count};
pub use broadcasting::broadcast;
pub use calc_result::CalcResult;
pub use combining::combine;
pub use number_core::{
    add_numbers, divide_numbers, multiply_numbers, negate_number, percent_number, power_numbers,
    subtract_numbers,
};
pub use order::compare_values;
pub use rectangle_core::{Grid, Value};
pub use unary::{broadcast_unary, combine_one};
pub use value_core::{LAST_COLUMN, LAST_ROW, Operator};

mod broadcasting;
mod calc_result;
mod combining;
mod order;
#[cfg(test)]
mod tests;
mod unary;
