//! What formulas and sheets are made of, below both: texts, error values, elements of arrays, cells, operators, want of memory.
#![tactic(auto)]

pub use array::{ArrayNode, Rows};
pub use error::Error;
pub use memory::Memory;
pub use operator::{OpCompare, OpProduct, OpSum, OpUnary, Operator};
pub use position::{CellReferenceIndex, LAST_COLUMN, LAST_ROW, Range};
pub use text::Text;
pub use texts::Texts;

mod array;
mod error;
mod memory;
mod operator;
mod position;
#[cfg(test)]
mod tests;
mod text;
mod texts;
