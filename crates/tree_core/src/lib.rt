//! Formulas as trees of nodes, and what a formula is apart from memory: its skeleton, places and runs of `@`.
#![tactic(auto)]

pub use call_core::{Function, Plain, Steps};
pub use clone::clone_nodes;
pub use corner::Corner;
pub use defined_name::DefinedNameS;
pub use laws::{nodes_are_counted, places_are_numbered, runs_fix_the_tree, trees_fix_the_formula};
pub use node::{Node, Nodes};
pub use value_core::{
    ArrayNode, CellReferenceIndex, Error, Memory, OpCompare, OpProduct, OpSum, OpUnary, Operator,
    Range, Rows, Text, Texts,
};
pub use view::{Closed, Leaf, View};

mod build;
mod clone;
mod compare;
mod corner;
mod count;
mod defined_name;
mod laws;
mod node;
#[cfg(test)]
mod tests;
mod view;
