//! The kind of function of a call: its name, or its number where no name is known.
ghost use Rattle.std.specs.Prelude.{◌≡◌, map};
ghost use Rattle.serde_json.specs.View.{view};
ghost use Rattle.value_json.specs.Piece.{Writes, data_tokens};
ghost use Rattle.value_json.specs.Reading.{Finds};
ghost use Rattle.formula_json.specs.Kinds.{kind_named, numbered_in, kind_at, number_data, kind_data};

use json::Writer;
use kind_table::{function_name, function_named};
use serde_json::Value;
use tree_core::{Function, Memory};
use value_json::{FormError, read_item, write_whole};

/// The kind of function with a name.
pub fn kind_named(name: &str) -> Option<Function>
    ensures { result ≡ kind_named name.now }
{
    function_named(name)
}

#[tactic(auto, unfolding(crate::specs::Kinds::numbered_in))]
fn numbered_in(value: &Value) -> Option<Function>
    ensures { result ≡ numbered_in (view value.now) }
{
    match value.as_u64() {
        Some(number) if number <= u16::MAX as u64 => Some(Function::Other(number as u16)),
        _ => None,
    }
}

/// The kind of function whose name or number stands at a place.
#[tactic(auto, unfolding(crate::specs::Kinds::kind_at))]
pub fn read_kind(items: &[Value], place: usize) -> Result<Function, FormError>
    ensures { Finds result (kind_at place (map view items.now)) }
{
    let value = read_item(items, place)?;
    let kind = match value.as_str() {
        Some(name) => kind_named(name),
        None => numbered_in(value),
    };
    match kind {
        Some(kind) => Ok(kind),
        None => Err(FormError::NotOfForm),
    }
}

/// Writes a kind of function: its name, or its number where no name is known.
#[inline(never)]
pub fn write_kind(writer: &mut Writer, kind: Function) -> Result<(), Memory>
    ensures { Writes result writer.old writer.new (data_tokens (kind_data kind)) }
{
    match function_name(kind) {
        Some(name) => writer.string(name)?,
        None => write_kind_number(writer, kind)?,
    }
    Ok(())
}

fn write_kind_number(writer: &mut Writer, kind: Function) -> Result<(), Memory>
    ensures { Writes result writer.old writer.new (data_tokens (number_data kind)) }
{
    match kind {
        Function::Other(number) => write_whole(writer, i64::from(number))?,
        _ => writer.null()?,
    }
    Ok(())
}
