//! The library for C: `include/hencredenza.h` says what each call asks of its caller. Each reads and writes the caller's own memory,
//! keeps nothing, and hands over one line.
//!
//! - `run`: what the program does, over a request and a room in memory.
//! - `formula`: a formula alone, imported and exported.
//! - `hand_over`: a line into the caller's room, if it fits.
#![tactic(auto)]

pub use formula::hencredenza_formula;
pub use run::hencredenza_run;

mod formula;
mod hand_over;
mod run;
#[cfg(test)]
mod tests;
