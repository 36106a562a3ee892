//! JSON read straight from the tokens of its text: a formula with no JSON value of it between.
//!
//! A reader here gives only what is right. Where it gives nothing, that says nothing of the text, and a reader of JSON values is
//! to be asked.
//!
//! - `unread`: why nothing was read straight.
//! - `number`: the whole number that the text of a number is.
//! - `value`: a JSON value without fractions, and the elements of an array.
//! - `field`: what one place of an array may hold.
//! - `leaf`: the nodes without children.
//! - `node`: a formula.
#![tactic(auto)]

pub use node::read_node;
pub use unread::Unread;
pub use value::read_value;

mod field;
mod leaf;
mod node;
mod number;
#[cfg(test)]
mod tests;
mod unread;
mod value;
