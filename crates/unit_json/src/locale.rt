ghost use Rattle.std.specs.Prelude.{◌≡◌};
ghost use Rattle.serde_json.specs.Find.{as_str};
ghost use Rattle.serde_json.specs.View.{view};
ghost use Rattle.value_json.specs.Reading.{Gives};
ghost use Rattle.unit_json.specs.Field.{at_key};
ghost use Rattle.unit_json.specs.Locale.{locale_in};

use crate::field::text_at;
use serde_json::Value;
use std::alloc::Global;
use units_core::Locale;
use value_core::Text;
use value_json::{FormError, check_keys};

/// The keys of a locale.
pub(crate) static LOCALE_KEYS: [&str; 5] = [
    "currency_symbol",
    "currency_standard",
    "date_short",
    "time_short",
    "date_time_short",
];

/// A locale: an object of just its five texts.
#[tactic(auto, unfolding(crate::specs::Locale::locale_in))]
pub fn read_locale(alloc: Global, value: &Value) -> Result<Locale, FormError>
    ensures { Gives result (locale_in (view value.now)) }
{
    check_keys(value, &LOCALE_KEYS)?;
    let currency_symbol = own_text_at(alloc, value, "currency_symbol")?;
    let currency_standard = own_text_at(alloc, value, "currency_standard")?;
    let date_short = own_text_at(alloc, value, "date_short")?;
    let time_short = own_text_at(alloc, value, "time_short")?;
    let date_time_short = own_text_at(alloc, value, "date_time_short")?;
    Ok(Locale {
        currency_symbol,
        currency_standard,
        date_short,
        time_short,
        date_time_short,
    })
}

fn own_text_at(alloc: Global, object: &Value, key: &str) -> Result<Text, FormError>
    ensures { Gives result (at_key as_str key.now (view object.now)) }
{
    let text = text_at(object, key)?;
    Ok(Text::from_text(alloc, text)?)
}
