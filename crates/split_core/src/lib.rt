//! A text cut at delimiters, as a rectangle of its pieces.
#![tactic(auto)]

pub use laws::pieces_are_cut;
pub use matching::none_empty;
pub use split::split_text;

mod delimiters;
mod laws;
mod matching;
mod pieces;
mod split;
#[cfg(test)]
mod tests;
