//! What a formula means: its value in context, with reference, as a rectangle, over a table of kinds and a book.
//!
//! - `leaf`, `evaluation`: what each node comes to, from what its children come to.
//! - `room`: whether there is room for a result, before its sides are read.
//! - `evaluator`: the calls of an evaluator.
//! - `functions`: the functions with rules of their own, by their names.
//! - `fault`, `validity`: whether a formula can be evaluated, and what is answered where it can't.
#![tactic(auto)]

pub use evaluator::Evaluator;
pub use fault::Fault;
pub use functions::{
    fn_address, fn_areas, fn_arraytotext, fn_choose, fn_choosecols, fn_chooserows, fn_column,
    fn_columns, fn_drop, fn_expand, fn_filter, fn_formulatext, fn_hstack, fn_index, fn_indirect,
    fn_offset, fn_row, fn_rows, fn_sequence, fn_take, fn_textsplit, fn_tocol, fn_torow,
    fn_transpose, fn_trimrange, fn_unique, fn_vstack, fn_wrapcols, fn_wraprows,
};
pub use validity::valid;
pub use validity_core::Place;

mod evaluation;
mod evaluator;
mod fault;
mod functions;
mod leaf;
mod room;
#[cfg(test)]
mod tests;
mod validity;
