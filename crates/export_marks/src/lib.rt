//! What tells whether an `@` of an imported formula can go: constants of that formula, and the contexts on the way to the `@`.
//!
//! - `laws`: a drop that can succeed never lowers a shape; what a context that turns true would do is a constant of the imported
//!   formula; so whether a drop comes back is told on the way to it, and no other drop needs a trial.
#![tactic(auto)]

pub use laws::{drops_never_lower, trials_suffice, trials_tell, turning_is_constant};

mod laws;
