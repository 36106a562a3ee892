//! The JSON form of a formula, in one place: what it is, how it is read and how it is written. Each node is an array: its tag,
//! what is its own, and its children.
//!
//! - `node`: a formula, over all its nodes.
//! - `tag`: the table of tags.
//! - `leaf`: the nodes without children.
//! - `kind`: the kind of function of a call.
#![tactic(auto)]

pub use kind::kind_named;
pub use leaf::read_leaf;
pub use node::{read_node, write_node};
pub use tag::{LeafTag, Tag, tag_named};

mod kind;
mod leaf;
mod node;
mod tag;
