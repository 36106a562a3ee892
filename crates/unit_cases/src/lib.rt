//! Cases of display units and of their JSON, worked by hand, as tests of `units_core` and
//! `unit_json`: they stand apart from these, so that they are proved without proving these again.
#![tactic(auto)]

#[cfg(test)]
mod tests;
