//! A law of values and shapes: what a formula means is no larger than its static shape says.
#![tactic(auto)]

ghost use Rattle.fit_laws.specs.MeansFit.{MeansFit};

/// The value of each formula, in every cell of every book and by every lawful table, fits the formula's shape: it has at most as
/// many rows and columns as the shape says. An unknown shape says nothing; one value means one row and one column.
pub fn means_fit()
    ensures { MeansFit }
{}

#[cfg(test)]
mod tests;
