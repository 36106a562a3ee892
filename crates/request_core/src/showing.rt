ghost use Rattle.std.specs.Prelude.{codes};
ghost use Rattle.serde_json.specs.Find.{get};
ghost use Rattle.serde_json.specs.View.{view};
ghost use Rattle.units_core.specs.Formats.{parts_of};
ghost use Rattle.value_json.specs.Reading.{Gives, GivesBy};
ghost use Rattle.request_core.specs.Showing.{formats_or, locale_or, showing_in, showing_of};

use serde_json::Value;
use std::alloc::Global;
use unit_json::{read_formats, read_locale};
use units_core::{Locale, MapFormats};
use value_json::FormError;

/// How values are shown: what is known of number formats, and how the country writes amounts of money and dates.
#[derive(Drop)]
pub struct Showing {
    pub formats: MapFormats,
    pub locale: Locale,
}

/// What stands at the keys `formats` and `locale`, or holds where they lack: nothing is known of any format, and the standard locale.
#[tactic(auto, unfolding(crate::specs::Showing::showing_in))]
pub(crate) fn read_showing(alloc: Global, request: &Value) -> Result<Showing, FormError>
    ensures { GivesBy showing_of result (showing_in (view request.now)) }
{
    let formats = formats_or(alloc, request)?;
    let locale = locale_or(alloc, request)?;
    Ok(Showing { formats, locale })
}

fn formats_or(alloc: Global, request: &Value) -> Result<MapFormats, FormError>
    ensures { GivesBy parts_of result (formats_or (get (codes "formats") (view request.now))) }
{
    match request.get("formats") {
        Some(value) => read_formats(alloc, value),
        None => Ok(MapFormats::new(alloc)),
    }
}

fn locale_or(alloc: Global, request: &Value) -> Result<Locale, FormError>
    ensures { Gives result (locale_or (get (codes "locale") (view request.now))) }
{
    match request.get("locale") {
        Some(value) => read_locale(alloc, value),
        None => Ok(Locale::standard(alloc)?),
    }
}
