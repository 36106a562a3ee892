//! Rectangles of elements, values, and views: what has a size and an element at each place. Every rectangle is made from a view.
#![tactic(auto)]

pub use grid::Grid;
pub use value::Value;
pub use view::{View, grid_of};

mod copied;
mod grid;
mod grid_equality;
#[cfg(test)]
mod tests;
mod value;
mod view;
