/// By which rule a call of a kind has a display unit.
#[derive(Clone, Copy, Debug, PartialEq, Eq)]
pub enum UnitClass {
    /// None.
    NoUnit,
    /// That of the first argument.
    FirstArgument,
    /// The currency of the locale.
    Currency,
    /// A percentage of whole numbers.
    Percentage,
    /// A percentage of two digits behind the point.
    PercentageTwo,
    /// A date of the locale.
    Date,
    /// A date of the locale and its time.
    DateTime,
}
