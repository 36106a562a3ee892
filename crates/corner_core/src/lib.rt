//! The cell where an end of a reference lies, for a formula in a cell.
#![tactic(auto)]

pub use end::end_at;

mod end;
