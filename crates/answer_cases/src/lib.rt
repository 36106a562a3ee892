//! Cases of requests and formulas, worked by hand, as tests of `answer_core`: they stand apart from it, so that they are proved
//! without proving it again.
#![tactic(auto)]

#[cfg(test)]
mod tests;
