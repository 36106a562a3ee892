ghost use Rattle.std.specs.Prelude.{◌≡◌, option_map};
ghost use Rattle.serde_json.specs.Find.{as_object};
ghost use Rattle.serde_json.specs.View.{view};
ghost use Rattle.units_core.specs.Formats.{parts_of};
ghost use Rattle.value_json.specs.Reading.{FindsBy, GivesBy};
ghost use Rattle.unit_json.specs.Format.{AddsFormat, entries_in, entries_of, entry_in, formats_in, said_by};

use crate::format::read_format;
use serde_json::{Map, Value};
use std::alloc::Global;
use units_core::MapFormats;
use value_core::Text;
use value_json::FormError;

/// The number formats of a request: an object that says of each what its first part is. Nothing is known of a format that it lacks.
pub fn read_formats(alloc: Global, value: &Value) -> Result<MapFormats, FormError>
    ensures { GivesBy parts_of result (formats_in (view value.now)) }
{
    let members = read_object(value)?;
    let formats = filled(alloc, members)?;
    Ok(formats)
}

/// Formats of which the members of an object say what they are.
fn filled(alloc: Global, members: &Map<String, Value>) -> Result<MapFormats, FormError>
    ensures { GivesBy parts_of result (said_by members.now.entries) }
{
    let mut formats = MapFormats::new(alloc);
    for (key, value) in members.iter() {
        add_format(alloc, &mut formats, key.as_str(), value)?;
    }
    Ok(formats)
}

#[tactic(auto, using(crate::proofs::Filling::parsed))]
fn read_object(value: &Value) -> Result<&Map<String, Value>, FormError>
    ensures { FindsBy (λ members. entries_in members.now.entries) result (option_map entries_of (as_object (view value.now))) }
{
    match value.as_object() {
        Some(members) => Ok(members),
        None => Err(FormError::NotOfForm),
    }
}

/// Says of one format what stands there.
fn add_format(
    alloc: Global,
    formats: &mut MapFormats,
    num_fmt: &str,
    value: &Value,
) -> Result<(), FormError>
    ensures { AddsFormat result (parts_of formats.old) (parts_of formats.new) (entry_in (num_fmt.now, view value.now)) }
{
    let part = read_format(value)?;
    let num_fmt = Text::from_text(alloc, num_fmt)?;
    formats.set(num_fmt, part)?;
    Ok(())
}
