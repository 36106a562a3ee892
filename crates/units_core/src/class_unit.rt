ghost use Rattle.std.specs.Prelude.{◌≡◌, IfOk};
ghost use Rattle.units_core.specs.Class.{class_unit, currency_text, date_and_time, locale_currency, long_date, long_time, percentage, plain_blanks};

use crate::locale::Locale;
use crate::text::{holds, replaced, trimmed};
use crate::units::Units;
use kind_table::UnitClass;
use std::alloc::Global;
use value_core::{Memory, Text};

/// The unit of a call, by the class of its kind and the unit of its first argument.
pub(crate) fn class_unit(
    alloc: Global,
    locale: &Locale,
    class: UnitClass,
    first: Option<Units>,
) -> Result<Option<Units>, Memory>
    ensures { IfOk result (λ unit. unit ≡ class_unit locale.now class first) }
{
    match class {
        UnitClass::NoUnit => Ok(None),
        UnitClass::FirstArgument => Ok(first),
        UnitClass::Currency => Ok(Some(locale_currency(alloc, locale)?)),
        UnitClass::Percentage => Ok(Some(percentage(alloc, 0, "0%")?)),
        UnitClass::PercentageTwo => Ok(Some(percentage(alloc, 2, "0.00%")?)),
        UnitClass::Date => {
            let date = long_date(alloc, locale)?;
            Ok(Some(Units::Date(plain_blanks(alloc, &date)?)))
        }
        UnitClass::DateTime => Ok(Some(Units::Date(date_and_time(alloc, locale)?))),
    }
}

/// The text with a blank in place of each that doesn't break.
fn plain_blanks(alloc: Global, text: &Text) -> Result<Text, Memory>
    ensures { IfOk result (λ made. made ≡ plain_blanks text.now) }
{
    let made = replaced(alloc, text.as_str(), "\u{a0}", " ")?;
    Ok(made)
}

/// The format of an amount in the locale's currency.
fn currency_text(alloc: Global, locale: &Locale) -> Result<Text, Memory>
    ensures { IfOk result (λ made. made ≡ currency_text locale.now) }
{
    let standard = locale.currency_standard.as_str();
    let made = replaced(alloc, standard, "¤", locale.currency_symbol.as_str())?;
    let made = plain_blanks(alloc, &made)?;
    Ok(made)
}

fn locale_currency(alloc: Global, locale: &Locale) -> Result<Units, Memory>
    ensures { IfOk result (λ unit. unit ≡ locale_currency locale.now) }
{
    let num_fmt = currency_text(alloc, locale)?;
    let currency = locale.currency_symbol.try_clone(alloc)?;
    Ok(Units::Currency {
        group_separator: true,
        precision: 2,
        num_fmt,
        currency,
    })
}

pub(crate) fn percentage(alloc: Global, precision: i32, num_fmt: &str) -> Result<Units, Memory>
    ensures { IfOk result (λ unit. unit ≡ percentage precision num_fmt.now) }
{
    Ok(Units::Percentage {
        group_separator: false,
        precision,
        num_fmt: Text::from_text(alloc, num_fmt)?,
    })
}

/// The format of a date, with four digits of the year.
fn long_date(alloc: Global, locale: &Locale) -> Result<Text, Memory>
    ensures { IfOk result (λ made. made ≡ long_date locale.now) }
{
    let date = locale.date_short.as_str();
    if holds(date, "yyyy") {
        Ok(Text::from_text(alloc, date)?)
    } else {
        Ok(replaced(alloc, date, "yy", "yyyy")?)
    }
}

/// The format of a time, with AM/PM written so.
fn long_time(alloc: Global, locale: &Locale) -> Result<Text, Memory>
    ensures { IfOk result (λ made. made ≡ long_time locale.now) }
{
    let time = replaced(alloc, locale.time_short.as_str(), "a", "AM/PM")?;
    let time = trimmed(alloc, time.as_str())?;
    Ok(time)
}

/// The format of a date and its time.
fn date_and_time(alloc: Global, locale: &Locale) -> Result<Text, Memory>
    ensures { IfOk result (λ made. made ≡ date_and_time locale.now) }
{
    let time = long_time(alloc, locale)?;
    let date = long_date(alloc, locale)?;
    let pattern = locale.date_time_short.as_str();
    let made = replaced(alloc, pattern, "{0}", time.as_str())?;
    let made = replaced(alloc, made.as_str(), "{1}", date.as_str())?;
    let made = plain_blanks(alloc, &made)?;
    Ok(made)
}
