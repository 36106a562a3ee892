//! Static analysis: the shape of a formula, without evaluation.
//!
//! - `leaf`: nodes without children.
//! - `own`: what arguments show of themselves, and calls of the own kinds.
//! - `analysis`: whole formulas, by a table of kinds.
//! - `all_shapes`, `shapes`: a formula and all its parts at once, by the numbers of the nodes.
#![tactic(auto)]

pub use all_shapes::analyse_all;
pub use analysis::{call_shape, run_static_analysis_on_node, shapes_of};
pub use leaf::{leaf_shape, range_shape};
pub use own::{own_shape, shown_leaf};
pub use shapes::Shapes;

mod all_shapes;
mod analysis;
mod leaf;
mod own;
mod shapes;
#[cfg(test)]
mod tests;
