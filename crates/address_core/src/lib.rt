//! Names of columns, rows, cells and sheets as texts.
#![tactic(auto)]

pub use address::{Place, Style, address_text};
pub use cell_name::{leading_letters, past_letters};
pub use line::{column_of, few_digits, number_to_column, row_of};
pub use name::quote_name;

mod address;
mod cell_name;
mod line;
mod name;
#[cfg(test)]
mod tests;
