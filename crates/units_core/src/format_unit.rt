ghost use Rattle.std.specs.Prelude.{◌≡◌, IfOk};
ghost use Rattle.units_core.specs.Part.{currency_in, format_unit, number_unit, plain_unit, unit_of_part};

use crate::formats::{FirstPart, Formats};
use crate::text::holds;
use crate::units::Units;
use std::alloc::Global;
use value_core::{Memory, Text};

/// The unit of a number format.
pub(crate) fn format_unit<F: Formats>(
    alloc: Global,
    formats: &F,
    num_fmt: &str,
) -> Result<Option<Units>, Memory>
    ensures { IfOk result (λ unit. unit ≡ format_unit (F.first_part formats.now) num_fmt.now) }
{
    let part = formats.first_part(num_fmt);
    let unit = unit_of_part(alloc, part, num_fmt)?;
    Ok(unit)
}

fn unit_of_part(alloc: Global, part: FirstPart, num_fmt: &str) -> Result<Option<Units>, Memory>
    ensures { IfOk result (λ unit. unit ≡ unit_of_part part num_fmt.now) }
{
    match part {
        FirstPart::Number {
            percent,
            use_thousands,
            precision,
        } => {
            let num_fmt = Text::from_text(alloc, num_fmt)?;
            let unit = number_unit(alloc, percent, use_thousands, precision, num_fmt)?;
            Ok(Some(unit))
        }
        FirstPart::Date => Ok(Some(Units::Date(Text::from_text(alloc, num_fmt)?))),
        FirstPart::General | FirstPart::Error | FirstPart::None => Ok(None),
    }
}

fn number_unit(
    alloc: Global,
    percent: u32,
    group_separator: bool,
    precision: i32,
    num_fmt: Text,
) -> Result<Units, Memory>
    ensures { IfOk result (λ unit. unit ≡ number_unit percent group_separator precision num_fmt) }
{
    if 0 < percent {
        return Ok(Units::Percentage {
            group_separator,
            precision,
            num_fmt,
        });
    }
    let sign = currency_in(alloc, num_fmt.as_str())?;
    Ok(plain_unit(sign, group_separator, precision, num_fmt))
}

/// The sign of a currency that a number format holds.
fn currency_in(alloc: Global, num_fmt: &str) -> Result<Option<Text>, Memory>
    ensures { IfOk result (λ sign. sign ≡ currency_in num_fmt.now) }
{
    if holds(num_fmt, "$") {
        Ok(Some(Text::from_text(alloc, "$")?))
    } else if holds(num_fmt, "€") {
        Ok(Some(Text::from_text(alloc, "€")?))
    } else {
        Ok(None)
    }
}

fn plain_unit(sign: Option<Text>, group_separator: bool, precision: i32, num_fmt: Text) -> Units
    ensures { result ≡ plain_unit sign group_separator precision num_fmt }
{
    match sign {
        Some(currency) => Units::Currency {
            group_separator,
            precision,
            num_fmt,
            currency,
        },
        None => Units::Number {
            group_separator,
            precision,
            num_fmt,
        },
    }
}
