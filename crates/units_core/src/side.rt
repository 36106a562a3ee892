ghost use Rattle.std.specs.Prelude.{◌≡◌};
ghost use Rattle.units_core.specs.Product.{fits};

use crate::units::Units;

/// What stands on a side of a product, in a row of the table.
#[derive(Clone, Copy, Debug)]
pub(crate) enum Side {
    /// A number.
    Number,
    /// An amount of money.
    Currency,
    /// A percentage.
    Percentage,
    /// What has a unit.
    Any,
    /// What has none.
    Without,
    /// Either.
    AnyOrNone,
}

impl Side {
    /// Whether a side of this unit is meant.
    pub(crate) fn fits(self, unit: &Option<Units>) -> bool
        ensures { result ≡ fits self unit.now }
    {
        match self {
            Side::Number => matches!(unit, Some(Units::Number { .. })),
            Side::Currency => matches!(unit, Some(Units::Currency { .. })),
            Side::Percentage => matches!(unit, Some(Units::Percentage { .. })),
            Side::Any => unit.is_some(),
            Side::Without => unit.is_none(),
            Side::AnyOrNone => true,
        }
    }
}
