ghost use Rattle.std.specs.Prelude.{◌≡◌, IfOk};
ghost use Rattle.units_core.specs.Product.{finer, finer_percentage, fine_money, outcome_unit, rounded_money};

use crate::class_unit::percentage;
use crate::text::joined;
use crate::units::Units;
use std::alloc::Global;
use value_core::Memory;

/// Which unit a product has, of those of its sides.
#[derive(Clone, Copy, Debug)]
pub(crate) enum Outcome {
    /// None.
    Nothing,
    /// That of the left side.
    Left,
    /// That of the right side.
    Right,
    /// The one with more digits behind the point, the right one where both have as many.
    Finer,
    /// The left one where it has more digits; else the right one where it has two or more; else a percentage of two.
    FinerPercentage,
    /// The left amount of money where it has two digits or more; else one of two digits in its currency.
    LeftMoney,
    /// The same of the right amount.
    RightMoney,
}

impl Outcome {
    /// The unit of a product over sides of these units.
    pub(crate) fn unit(
        self,
        alloc: Global,
        left: Option<Units>,
        right: Option<Units>,
    ) -> Result<Option<Units>, Memory>
        ensures { IfOk result (λ unit. unit ≡ outcome_unit self left right) }
    {
        match self {
            Outcome::Nothing => Ok(None),
            Outcome::Left => Ok(left),
            Outcome::Right => Ok(right),
            Outcome::Finer => Ok(finer(left, right)),
            Outcome::FinerPercentage => finer_percentage(alloc, left, right),
            Outcome::LeftMoney => fine_money(alloc, left),
            Outcome::RightMoney => fine_money(alloc, right),
        }
    }
}

fn finer(left: Option<Units>, right: Option<Units>) -> Option<Units>
    ensures { result ≡ finer left right }
{
    match (left, right) {
        (Some(left), Some(right)) => {
            if right.get_precision() < left.get_precision() {
                Some(left)
            } else {
                Some(right)
            }
        }
        (None, right) => right,
        (left, None) => left,
    }
}

fn finer_percentage(
    alloc: Global,
    left: Option<Units>,
    right: Option<Units>,
) -> Result<Option<Units>, Memory>
    ensures { IfOk result (λ unit. unit ≡ finer_percentage left right) }
{
    match (left, right) {
        (Some(left), Some(right)) => {
            if right.get_precision() < left.get_precision() {
                Ok(Some(left))
            } else if 1 < right.get_precision() {
                Ok(Some(right))
            } else {
                Ok(Some(percentage(alloc, 2, "0.00%")?))
            }
        }
        (None, right) => Ok(right),
        (left, None) => Ok(left),
    }
}

fn fine_money(alloc: Global, unit: Option<Units>) -> Result<Option<Units>, Memory>
    ensures { IfOk result (λ made. made ≡ fine_money unit) }
{
    match unit {
        Some(unit) => {
            if 1 < unit.get_precision() {
                Ok(Some(unit))
            } else {
                Ok(Some(rounded_money(alloc, unit)?))
            }
        }
        None => Ok(None),
    }
}

/// An amount of money in its currency, with two digits behind the point.
fn rounded_money(alloc: Global, unit: Units) -> Result<Units, Memory>
    ensures { IfOk result (λ made. made ≡ rounded_money unit) }
{
    match unit {
        Units::Currency { currency, .. } => {
            let num_fmt = joined(alloc, currency.as_str(), "#,##0.00")?;
            Ok(Units::Currency {
                group_separator: true,
                precision: 2,
                num_fmt,
                currency,
            })
        }
        other => Ok(other),
    }
}
