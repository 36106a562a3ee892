//! The functions of arrays, over what their arguments came to: each checks its arguments in their order, and then calls the rule
//! that makes its array.
#![tactic(auto)]

pub use kept::{filter_call, to_column_call, to_row_call, trim_call, unique_call};
pub use parts::{
    choice_in, choose_columns_call, choose_rows_call, count_if, count_in, drop_call, take_call,
    transpose_call,
};
pub use progression::sequence_call;
pub use sizes::{expand_call, wrap_columns_call, wrap_rows_call};
pub use stacks::{hstack_call, vstack_call};

mod kept;
mod parts;
mod progression;
mod sizes;
mod stacks;
#[cfg(test)]
mod tests;
