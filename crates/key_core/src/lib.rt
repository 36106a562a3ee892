//! Keys: by what elements of arrays are told apart, and rows of them, and the positions that are kept where each key is to come once.
#![tactic(auto)]

pub use key::{CellKey, cell_key};
pub use laws::keys_tell_elements_apart;
pub use positions::kept_positions;
pub use row::{RowKey, row_key};

mod key;
mod laws;
mod positions;
mod row;
#[cfg(test)]
mod tests;
