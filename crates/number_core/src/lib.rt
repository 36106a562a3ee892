//! Numbers in millionths: what operators make of them, their whole numbers, and their texts.
#![tactic(auto)]

pub use arithmetic::{
    add_numbers, divide_numbers, multiply_numbers, negate_number, number_in_range, percent_number,
    power_numbers, subtract_numbers,
};
pub use laws::number_texts_read_back;
pub use part::{absolute_number, floor_number, sign_number};
pub use read::read_number;
pub use whole::{floor, saturating_i64_to_i32, saturating_i64_to_usize, trunc};
pub use write::number_text;

mod arithmetic;
mod laws;
mod part;
mod read;
#[cfg(test)]
mod tests;
mod whole;
mod write;
