//! A value, as a cell or an element of an array has it.
ghost use Rattle.std.specs.Prelude.{◌≡◌};
ghost use Rattle.serde_json.specs.View.{view};
ghost use Rattle.value_json.specs.Piece.{Writes, data_tokens};
ghost use Rattle.value_json.specs.Reading.{Finds, Gives};
ghost use Rattle.value_json.specs.Values.{error_in, value_in, error_data, value_data};

use crate::error::FormError;
use crate::error_value::error_named;
use crate::object::{check_keys, member};
use crate::piece::write_whole;
use json::Writer;
use serde_json::Value;
use std::alloc::Global;
use value_core::{ArrayNode, Error, Memory, Text};

/// The keys of an error value.
static ERROR_KEYS: [&str; 1] = ["error"];

/// The value that a JSON value is: null for a blank, a truth value, a number in millionths, a text, or an object with
/// exactly the key `error` for an error value.
#[tactic(auto, unfolding(crate::specs::Values::value_in))]
pub fn read_value(alloc: Global, value: &Value) -> Result<ArrayNode, FormError>
    ensures { Gives result (value_in (view value.now)) }
{
    match value {
        Value::Null => Ok(ArrayNode::Empty),
        Value::Bool(truth) => Ok(ArrayNode::Boolean(*truth)),
        Value::Number(number) => match number.as_i64() {
            Some(millionths) => Ok(ArrayNode::Number(millionths)),
            None => Err(FormError::NotOfForm),
        },
        Value::String(text) => Ok(ArrayNode::String(Text::from_text(alloc, text.as_str())?)),
        Value::Array(_) => Err(FormError::NotOfForm),
        Value::Object(_) => Ok(ArrayNode::Error(read_error_object(value)?)),
    }
}

#[tactic(auto, unfolding(crate::specs::Values::error_in))]
fn read_error_object(value: &Value) -> Result<Error, FormError>
    ensures { Finds result (error_in (view value.now)) }
{
    check_keys(value, &ERROR_KEYS)?;
    let Some(name) = member(value, "error")?.as_str() else {
        return Err(FormError::NotOfForm);
    };
    match error_named(name) {
        Some(error) => Ok(error),
        None => Err(FormError::NotOfForm),
    }
}

/// Writes a value.
#[inline(never)]
pub fn write_value(writer: &mut Writer, value: &ArrayNode) -> Result<(), Memory>
    ensures { Writes result writer.old writer.new (data_tokens (value_data value.now)) }
{
    match value {
        ArrayNode::Number(number) => write_whole(writer, *number)?,
        ArrayNode::Boolean(truth) => writer.boolean(*truth)?,
        ArrayNode::String(text) => writer.string(text.as_str())?,
        ArrayNode::Error(error) => write_error_object(writer, *error)?,
        ArrayNode::Empty => writer.null()?,
    }
    Ok(())
}

fn write_error_object(writer: &mut Writer, error: Error) -> Result<(), Memory>
    ensures { Writes result writer.old writer.new (data_tokens (error_data error)) }
{
    writer.begin_object()?;
    writer.key("error")?;
    writer.string(error.name())?;
    writer.end_object()?;
    Ok(())
}
