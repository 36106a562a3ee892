//! Cases of import and export, worked by hand, as tests of `intersect`: they stand apart from it, so that they are proved without
//! proving it again.
#![tactic(auto)]

#[cfg(test)]
mod tests;
