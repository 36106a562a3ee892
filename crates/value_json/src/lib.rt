//! The JSON form of values, in one place: what it is, how it is read and how it is written. And the pieces that the readers
//! and writers of larger forms are made of.
//!
//! A reader takes a parsed JSON value; it refuses exactly where the definition that its contract names finds nothing. A writer
//! adds the tokens of the JSON value that its definition gives.
//!
//! - `error`: `FormError`, why nothing was read.
//! - `value`: a value, as a cell or an element of an array has it.
//! - `error_value`: error values by their names.
//! - `rows`, `texts`: rows and rectangles of values, and lists of texts.
//! - `field`: what one place of an array may hold.
//! - `object`: what an object holds.
//! - `piece`: the parts that a JSON text is written in.
//! - `laws`: what is written is read as it.
#![tactic(auto)]

pub use error::FormError;
pub use error_value::{ERRORS, error_named, read_error};
pub use field::{
    check_length, read_array, read_i32, read_i64, read_id, read_item, read_name, read_own_text,
    read_text, read_truth, read_u32,
};
pub use laws::values_read_back;
pub use object::{check_keys, member};
pub use piece::{begin, end, write_number_or_null, write_text_or_null, write_whole};
pub use rows::{read_rows, write_grid, write_rows};
pub use texts::{read_texts, write_texts};
pub use value::{read_value, write_value};

mod error;
mod error_value;
mod field;
mod laws;
mod object;
mod piece;
mod rows;
#[cfg(test)]
mod tests;
mod texts;
mod value;
