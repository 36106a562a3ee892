//! A large request from a number, and what is told of its answer in one line: a load for measuring that needs no input.
//!
//! - `book`: its sheet.
//! - `formula`: its formula.
//! - `request`: both in one request.
//! - `line`: the line.
#![tactic(auto)]

pub use line::summary_line;
pub use request::generated_request;

mod book;
mod formula;
mod line;
mod request;
#[cfg(test)]
mod tests;
