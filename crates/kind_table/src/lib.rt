//! The kinds of functions: how a call takes its arguments, the shape that it has without being evaluated, and its value.
//!
//! - `signature`, `static_result`, `shown`: how an argument is taken, a shape, what an argument shows of itself.
//! - `kinds`, `asks`: what a table of kinds is, and how it is asked.
//! - `pattern`, `shape_pattern`, `kind`, `arguments`: what a row of a table says.
//! - `table`, `crate_kinds`: the table that comes with this crate, 458 kinds by number.
//! - `own_table`, `own_signatures`, `own_shapes`: the kinds with rules of their own.
//! - `names`, `name_order`: the names of both sorts.
//! - `laws`: what holds of the own kinds.
#![tactic(auto)]

pub use arguments::scalar_arguments;
pub use asks::Asks;
pub use crate_kinds::CrateKinds;
pub use kinds::Kinds;
pub use laws::own_rows_keep_order;
pub use names::{function_name, function_named, own_by_name, own_name};
pub use own_shapes::{Shows, own_row};
pub use own_signatures::own_signature;
pub use rectangle_core::{Grid, Value};
pub use shown::Shown;
pub use signature::Signature;
pub use static_result::StaticResult;
pub use unit_class::UnitClass;

mod arguments;
mod asks;
mod crate_kinds;
mod kind;
mod kinds;
mod laws;
mod name_order;
mod names;
mod own_shapes;
mod own_signatures;
mod own_table;
mod pattern;
mod shape_pattern;
mod shown;
mod signature;
mod static_result;
mod table;
#[cfg(test)]
mod tests;
mod unit_class;
