//! The functions of references, over what their arguments came to: each checks its arguments in their order, and answers a
//! value, a range or an array.
#![tactic(auto)]

pub use choosing::choose_call;
pub use formula::formula_text_call;
pub use indexing::index_call;
pub use numbering::{column_call, row_call};
pub use offsetting::offset_call;
pub use sizing::{areas_call, columns_call, rows_call};

mod choosing;
mod formula;
mod indexing;
mod numbering;
mod offsetting;
mod sizing;
#[cfg(test)]
mod tests;
