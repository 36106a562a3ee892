//! The JSON form of a request: bytes of a text, read into the book, the cell and the formula that they stand for, and into how its
//! value is to be shown and how it is to be answered.
//!
//! - `text`: the JSON value that bytes are.
//! - `cell`: where a cell lies, and a cell of the book.
//! - `book`: all cells of the book.
//! - `question`: the keys that every request has; `showing`: number formats and a locale.
//! - `request`: the request itself, an object whose keys stand in one list; a formula alone.
#![tactic(auto)]

pub use option_json::Options;
pub use request::{Request, read_formula_alone, read_request};
pub use value_json::FormError;

mod book;
mod cell;
mod question;
mod request;
mod showing;
#[cfg(test)]
mod tests;
mod text;
