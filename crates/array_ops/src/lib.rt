//! Array functions by position: pure calls on grids, each of which fills one grid from a view. The rules for sizes and
//! positions are handed on.
#![tactic(auto)]

pub use position_core::{
    Fitted, Numbers, Position, Reshape, Size, SizeLimit, check_array_limit, check_array_size,
    checked, is_choice, position_in, reshaped_size, sequence_element,
};
pub use reshaping::{
    choose_columns, choose_rows, drop_rows_columns, expand, take, transpose_array, wrap_columns,
    wrap_rows,
};
pub use sequences::{count_refused, sequence};
pub use stacking::{hstack, vstack};

mod answer;
mod reshaped;
mod reshaping;
mod sequences;
mod stacking;
#[cfg(test)]
mod tests;
