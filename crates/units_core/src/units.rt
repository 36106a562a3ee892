ghost use Rattle.std.specs.Prelude.{◌≡◌, ◌↔◌, IsTrue, IfOk};
ghost use Rattle.units_core.specs.Part.{num_fmt_of, precision_of};

use std::alloc::Global;
use value_core::{Memory, Text};

/// A display unit: the number format in which a value is shown, and what it says.
///
/// The precision is the number of digits behind the point, and a group separator sets thousands apart.
#[derive(Debug, Drop)]
pub enum Units {
    /// A number.
    Number {
        group_separator: bool,
        precision: i32,
        num_fmt: Text,
    },
    /// An amount of money, and the sign of its currency.
    Currency {
        group_separator: bool,
        precision: i32,
        num_fmt: Text,
        currency: Text,
    },
    /// A percentage.
    Percentage {
        group_separator: bool,
        precision: i32,
        num_fmt: Text,
    },
    /// A date, with its time or without, by its number format.
    Date(Text),
}

impl Units {
    /// The number format.
    pub fn get_num_fmt(&self) -> &str
        ensures { result.now ≡ num_fmt_of self.now }
    {
        match self {
            Units::Number { num_fmt, .. }
            | Units::Currency { num_fmt, .. }
            | Units::Percentage { num_fmt, .. }
            | Units::Date(num_fmt) => num_fmt.as_str(),
        }
    }

    /// The digits behind the point; 0 for a date.
    pub fn get_precision(&self) -> i32
        ensures { result ≡ precision_of self.now }
    {
        match self {
            Units::Number { precision, .. }
            | Units::Currency { precision, .. }
            | Units::Percentage { precision, .. } => *precision,
            Units::Date(_) => 0,
        }
    }

    /// An equal unit.
    pub fn try_clone(&self, alloc: Global) -> Result<Units, Memory>
        ensures { IfOk result (λ copy. copy ≡ self.now) }
    {
        match self {
            Units::Number {
                group_separator,
                precision,
                num_fmt,
            } => Ok(Units::Number {
                group_separator: *group_separator,
                precision: *precision,
                num_fmt: num_fmt.try_clone(alloc)?,
            }),
            Units::Currency {
                group_separator,
                precision,
                num_fmt,
                currency,
            } => {
                let num_fmt = num_fmt.try_clone(alloc)?;
                let currency = currency.try_clone(alloc)?;
                Ok(Units::Currency {
                    group_separator: *group_separator,
                    precision: *precision,
                    num_fmt,
                    currency,
                })
            }
            Units::Percentage {
                group_separator,
                precision,
                num_fmt,
            } => Ok(Units::Percentage {
                group_separator: *group_separator,
                precision: *precision,
                num_fmt: num_fmt.try_clone(alloc)?,
            }),
            Units::Date(num_fmt) => Ok(Units::Date(num_fmt.try_clone(alloc)?)),
        }
    }

    /// Whether the two units are one, text for text.
    pub fn is(&self, other: &Units) -> bool
        ensures { IsTrue result ↔ (self.now ≡ other.now) }
    {
        match (self, other) {
            (
                Units::Number {
                    group_separator,
                    precision,
                    num_fmt,
                },
                Units::Number {
                    group_separator: other_separator,
                    precision: other_precision,
                    num_fmt: other_num_fmt,
                },
            )
            | (
                Units::Percentage {
                    group_separator,
                    precision,
                    num_fmt,
                },
                Units::Percentage {
                    group_separator: other_separator,
                    precision: other_precision,
                    num_fmt: other_num_fmt,
                },
            ) => {
                *group_separator == *other_separator
                    && *precision == *other_precision
                    && num_fmt.is(other_num_fmt)
            }
            (
                Units::Currency {
                    group_separator,
                    precision,
                    num_fmt,
                    currency,
                },
                Units::Currency {
                    group_separator: other_separator,
                    precision: other_precision,
                    num_fmt: other_num_fmt,
                    currency: other_currency,
                },
            ) => {
                *group_separator == *other_separator
                    && *precision == *other_precision
                    && num_fmt.is(other_num_fmt)
                    && currency.is(other_currency)
            }
            (Units::Date(num_fmt), Units::Date(other_num_fmt)) => num_fmt.is(other_num_fmt),
            _ => false,
        }
    }
}
