//! The marks of an imported formula once the `@`s that import put are left out of it all at once, and once they stand again.
//!
//! - `turn`: such `@`s go or come over each node that import enters, and what is known above follows.
//! - `put`: both ways, told by the formulas.
//!
//! Nothing here takes memory.
#![tactic(auto)]

pub use put::{leave_out_put, put_again};

mod put;
#[cfg(test)]
mod tests;
mod turn;
