//! The arguments of a function, by what they came to: how many there are, and what each is cast to. A check that fails ends the
//! call with its error.
#![tactic(auto)]

pub use arguments::{
    array_in, floor_in, int_if, int_in, int_or, is_missing, number_if, number_in, or_one, pad_in,
    size_in, size_or, text_in, truth_in, truth_or,
};
pub use counts::{
    OneOrTwo, OneToFour, OneToThree, ThreeToFive, TwoOrThree, TwoToFive, TwoToFour, TwoToSix,
    none_or_one, one, one_or_two, one_to_four, one_to_three, three_to_five, two_or_three,
    two_to_five, two_to_four, two_to_six,
};
pub use lists::{FirstAndMore, arrays_in, at_least_one, at_least_two};
pub use stop::Stop;

mod arguments;
mod counts;
mod lists;
mod stop;
#[cfg(test)]
mod tests;
