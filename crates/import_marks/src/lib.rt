//! The marks of an imported formula, made in one recursion: what is known of each of its nodes, so that a drop needs no import.
//!
//! - `told`: what is told of a formula from its parts up.
//! - `made`: that, and the marks of its parts.
//! - `making`: the recursion.
#![tactic(auto)]

pub use making::marks_of;

mod made;
mod making;
mod told;
