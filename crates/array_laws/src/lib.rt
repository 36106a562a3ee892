//! Laws of the calls that move the elements of arrays.
#![tactic(auto)]

pub use laws::{
    array_is_taken_and_dropped_rows, columns_wrap_as_transposed_rows, stacks_turn_over,
    transpose_twice_is_the_array,
};

mod laws;
