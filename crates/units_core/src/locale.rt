ghost use Rattle.std.specs.Prelude.{◌≡◌, IfOk};
ghost use Rattle.units_core.specs.Locale.{standard_locale};

use std::alloc::Global;
use value_core::{Memory, Text};

/// How a country writes amounts of money, dates and times.
#[derive(Debug, Drop)]
pub struct Locale {
    /// The sign of the currency.
    pub currency_symbol: Text,
    /// The number format of an amount, with `¤` where the sign stands.
    pub currency_standard: Text,
    /// The format of a short date.
    pub date_short: Text,
    /// The format of a short time, with `a` where AM or PM stands.
    pub time_short: Text,
    /// The format of a date and a time, with `{1}` where the date stands and `{0}` where the time does.
    pub date_time_short: Text,
}

impl Locale {
    /// The locale of a request that names none: `$`, `¤#,##0.00`, `m/d/yy`, `h:mm a` and `{1}, {0}`.
    pub fn standard(alloc: Global) -> Result<Locale, Memory>
        ensures { IfOk result (λ locale. locale ≡ standard_locale) }
    {
        let currency_symbol = Text::from_text(alloc, "$")?;
        let currency_standard = Text::from_text(alloc, "¤#,##0.00")?;
        let date_short = Text::from_text(alloc, "m/d/yy")?;
        let time_short = Text::from_text(alloc, "h:mm a")?;
        let date_time_short = Text::from_text(alloc, "{1}, {0}")?;
        Ok(Locale {
            currency_symbol,
            currency_standard,
            date_short,
            time_short,
            date_time_short,
        })
    }
}
