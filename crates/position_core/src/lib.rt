//! Sizes and positions: how large the answer of a call is that moves the elements of its arrays, and where each element of
//! it comes from. Nothing here holds an element.
#![tactic(auto)]

pub use axis::is_choice;
pub use checks::checked;
pub use limit::{SizeLimit, check_array_limit, check_array_size};
pub use numbers::Numbers;
pub use position::{Position, position_in};
pub use reshape::{Fitted, Reshape, Size};
pub use sequence::sequence_element;
pub use sizes::reshaped_size;

mod axis;
mod checks;
mod limit;
mod numbers;
mod position;
mod reshape;
mod sequence;
mod sizes;
mod stacks;
#[cfg(test)]
mod tests;
