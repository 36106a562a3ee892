/// The operators of one sum.
#[derive(Clone, Copy, Debug, PartialEq, Eq)]
pub enum OpSum {
    Add,
    Minus,
}

/// The operators of one product.
#[derive(Clone, Copy, Debug, PartialEq, Eq)]
pub enum OpProduct {
    Times,
    Divide,
}

/// The operators before or behind one operand.
#[derive(Clone, Copy, Debug, PartialEq, Eq)]
pub enum OpUnary {
    Minus,
    Percentage,
}

/// The comparisons.
#[derive(Clone, Copy, Debug, PartialEq, Eq)]
pub enum OpCompare {
    LessThan,
    GreaterThan,
    Equal,
    LessOrEqualThan,
    GreaterOrEqualThan,
    NonEqual,
}

/// The operators between two sides, the range operator aside.
#[derive(Clone, Copy, Debug, PartialEq, Eq)]
pub enum Operator {
    Concatenate,
    Power,
    Sum(OpSum),
    Product(OpProduct),
    Compare(OpCompare),
}
