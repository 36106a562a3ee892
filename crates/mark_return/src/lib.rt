//! Whether an imported formula without the `@`s that import puts comes back, told by its marks.
//!
//! - `returns`: import of it is the imported formula again, flags aside.
//!
//! Nothing is imported here and nothing takes memory.
#![tactic(auto)]

pub use returns::comes_back;

mod returns;
#[cfg(test)]
mod tests;
