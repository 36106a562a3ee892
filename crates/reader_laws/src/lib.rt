//! What is written of references is read: laws between `address_core` and `reader_core`.
#![tactic(auto)]

pub use laws::{addresses_read_back, quoted_names_read_back};

mod laws;
