ghost use Rattle.std.specs.Prelude.{◌≡◌};
ghost use Rattle.kind_values.specs.Row.{row_of};

use crate::counting::Counting;
use crate::number_rule::NumberRule;
use crate::reckoning::Reckoning;
use crate::value_rule::ValueRule;

/// What a rule says of a call.
#[derive(Clone, Copy, Debug)]
pub(crate) enum Row {
    /// Over the numbers that count among all arguments.
    Reckoned(Counting, Reckoning),
    /// Without arguments.
    Constant(bool),
    /// One argument, element by element.
    EachNumber(NumberRule),
    /// Two or three arguments: a condition, and what is chosen.
    Choice,
    NotImplemented,
}

/// The row of a rule.
pub(crate) fn row_of(rule: ValueRule) -> Row
    ensures { result ≡ row_of rule }
{
    match rule {
        ValueRule::Sum => Row::Reckoned(Counting::Numbers, Reckoning::Total),
        ValueRule::Min => Row::Reckoned(Counting::Numbers, Reckoning::Least),
        ValueRule::Max => Row::Reckoned(Counting::Numbers, Reckoning::Greatest),
        ValueRule::Count => Row::Reckoned(Counting::ReadableNumbers, Reckoning::Count),
        ValueRule::Counta => Row::Reckoned(Counting::Filled, Reckoning::Count),
        ValueRule::And => Row::Reckoned(Counting::Truths, Reckoning::All),
        ValueRule::Or => Row::Reckoned(Counting::Truths, Reckoning::Any),
        ValueRule::True => Row::Constant(true),
        ValueRule::False => Row::Constant(false),
        ValueRule::Abs => Row::EachNumber(NumberRule::Absolute),
        ValueRule::Sign => Row::EachNumber(NumberRule::Sign),
        ValueRule::Int => Row::EachNumber(NumberRule::Floor),
        ValueRule::If => Row::Choice,
        ValueRule::NotImplemented => Row::NotImplemented,
    }
}
