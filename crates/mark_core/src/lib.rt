//! Marks: what export knows of an imported formula while it drops its `@`s, and the trials of these drops.
//!
//! - `mark`: what is known of a node and of its parts. `shape`: the shape of a bare node, by those of its parts.
//! - `way`: whether import reaches an `@`. `probe`: whether it can go. `commit`: it goes.
//! - `sweep`: one trial after the other, until none of the listed `@`s can go.
//!
//! Nothing here takes memory.
#![tactic(auto)]

pub use mark::{Form, Known, Mark};
pub use shape::bare_shape;
pub use sweep::drop_what_can;
pub use way::wants_part;

mod commit;
mod lists;
mod mark;
mod probe;
mod shape;
mod sweep;
#[cfg(test)]
mod tests;
mod trial;
mod way;
