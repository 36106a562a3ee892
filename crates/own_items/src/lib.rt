//! Owners that contracts see as what they hold, so that a tree of them is plain data.
//!
//! - `boxed`: `Boxed`, one value on the heap.
//! - `items`: `Items`, some values in a row on the heap.
#![tactic(auto)]

mod boxed;
mod items;
#[cfg(test)]
mod tests;

pub use boxed::Boxed;
pub use items::Items;
