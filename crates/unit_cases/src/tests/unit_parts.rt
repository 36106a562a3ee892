use super::Parts::{self, Currency, Date, Nothing, Number, Percentage};
use super::parts_of;
use std::alloc::Global;
use std::test::Fail;
use units_core::{Units, units_rest_on_formats};
use value_core::{Memory, Text};

/// Units, each with its number format and its precision.
static SAID: [(Parts, &str, i32); 6] = [
    (Number(false, 0, "0"), "0", 0),
    (Number(true, i32::MIN, "#,##0"), "#,##0", i32::MIN),
    (Currency(true, 2, "0.00 kr", "kr"), "0.00 kr", 2),
    (Percentage(false, i32::MAX, "%"), "%", i32::MAX),
    (Percentage(true, -1, ""), "", -1),
    (Date("yyyy"), "yyyy", 0),
];

#[test]
fn a_unit_says_its_format_and_its_digits(rt: HostRuntime) -> Result<(), Fail> {
    for &(unit, num_fmt, precision) in &SAID {
        assert!(rt; says(rt.alloc(), unit, num_fmt, precision)?, "{num_fmt}");
        assert!(rt; is_copied(rt.alloc(), unit)?, "{num_fmt}");
    }
    assert!(rt; made(rt.alloc(), Nothing)?.is_none());
    units_rest_on_formats();
    Ok(())
}

/// The unit of some parts.
pub(super) fn made(alloc: Global, wanted: Parts) -> Result<Option<Units>, Memory> {
    match wanted {
        Nothing => Ok(None),
        Number(group_separator, precision, num_fmt) => Ok(Some(Units::Number {
            group_separator,
            precision,
            num_fmt: Text::from_text(alloc, num_fmt)?,
        })),
        Currency(group_separator, precision, num_fmt, currency) => {
            let num_fmt = Text::from_text(alloc, num_fmt)?;
            let currency = Text::from_text(alloc, currency)?;
            Ok(Some(Units::Currency {
                group_separator,
                precision,
                num_fmt,
                currency,
            }))
        }
        Percentage(group_separator, precision, num_fmt) => Ok(Some(Units::Percentage {
            group_separator,
            precision,
            num_fmt: Text::from_text(alloc, num_fmt)?,
        })),
        Date(num_fmt) => Ok(Some(Units::Date(Text::from_text(alloc, num_fmt)?))),
    }
}

fn says(alloc: Global, wanted: Parts, num_fmt: &str, precision: i32) -> Result<bool, Memory> {
    let unit = made(alloc, wanted)?;
    match &unit {
        Some(unit) => Ok(unit.get_num_fmt() == num_fmt && unit.get_precision() == precision),
        None => Ok(false),
    }
}

fn is_copied(alloc: Global, wanted: Parts) -> Result<bool, Memory> {
    let copy = copied(alloc, wanted)?;
    Ok(parts_of(&copy) == wanted)
}

fn copied(alloc: Global, wanted: Parts) -> Result<Option<Units>, Memory> {
    let unit = made(alloc, wanted)?;
    match &unit {
        Some(unit) => Ok(Some(unit.try_clone(alloc)?)),
        None => Ok(None),
    }
}

/// Two units each, and whether they are one.
static PAIRS: [(Parts, Parts, bool); 17] = [
    (Number(false, 0, "0"), Number(false, 0, "0"), true),
    (Number(false, 0, "0"), Number(true, 0, "0"), false),
    (Number(false, 0, "0"), Number(false, 1, "0"), false),
    (Number(false, 0, "0"), Number(false, 0, "00"), false),
    (Number(false, 0, "0"), Percentage(false, 0, "0"), false),
    (Percentage(true, 2, "%"), Percentage(true, 2, "%"), true),
    (Percentage(true, 2, "%"), Percentage(false, 2, "%"), false),
    (Percentage(true, 2, "%"), Percentage(true, 3, "%"), false),
    (Percentage(true, 2, "%"), Percentage(true, 2, "0%"), false),
    (
        Currency(true, 2, "$0", "$"),
        Currency(true, 2, "$0", "$"),
        true,
    ),
    (
        Currency(true, 2, "$0", "$"),
        Currency(false, 2, "$0", "$"),
        false,
    ),
    (
        Currency(true, 2, "$0", "$"),
        Currency(true, 1, "$0", "$"),
        false,
    ),
    (
        Currency(true, 2, "$0", "$"),
        Currency(true, 2, "$", "$"),
        false,
    ),
    (
        Currency(true, 2, "$0", "$"),
        Currency(true, 2, "$0", "€"),
        false,
    ),
    (Currency(true, 2, "$0", "$"), Number(true, 2, "$0"), false),
    (Date("0"), Date("0"), true),
    (Date("0"), Date("1"), false),
];

#[test]
fn two_units_are_one_where_all_parts_are(rt: HostRuntime) -> Result<(), Fail> {
    for &(left, right, same) in &PAIRS {
        assert_eq!(rt;
            are_one(rt.alloc(), left, right)?,
            same,
            "{left:?} {right:?}"
        );
        assert_eq!(rt;
            are_one(rt.alloc(), right, left)?,
            same,
            "{right:?} {left:?}"
        );
    }
    assert!(rt; !are_one(rt.alloc(), Date("0"), Number(false, 0, "0"))?);
    Ok(())
}

fn are_one(alloc: Global, left: Parts, right: Parts) -> Result<bool, Memory> {
    let left = made(alloc, left)?;
    let right = made(alloc, right)?;
    match (&left, &right) {
        (Some(left), Some(right)) => Ok(left.is(right)),
        _ => Ok(false),
    }
}
