ghost use Rattle.std.specs.Prelude.{◌≡◌, IfOk};
ghost use Rattle.operand_core.specs.Cast.{cast_to_bool, cast_to_number, cast_to_string, cast_value};

use crate::cast::{cast_to_bool, cast_to_number, cast_to_string};
use rectangle_core::Value;
use std::alloc::Global;
use value_core::{ArrayNode, Error, Memory, Text};

/// A value as a number, in millionths: that of its element, 0 for a missing one, `#NIMPL!` for a rectangle.
pub fn cast_value_to_number(value: &Value) -> Result<i64, Error>
    ensures { result ≡ cast_value cast_to_number value.now }
{
    match value {
        Value::One(element) => cast_to_number(element),
        Value::Missing => Ok(0),
        Value::Grid(_) => Err(Error::NIMPL),
    }
}

/// A value as a truth value: that of its element, false for a missing one, `#NIMPL!` for a rectangle.
pub fn cast_value_to_bool(value: &Value) -> Result<bool, Error>
    ensures { result ≡ cast_value cast_to_bool value.now }
{
    match value {
        Value::One(element) => cast_to_bool(element),
        Value::Missing => Ok(false),
        Value::Grid(_) => Err(Error::NIMPL),
    }
}

/// A value as a text: that of its element, the empty one for a missing one, `#NIMPL!` for a rectangle.
pub fn cast_value_to_string(alloc: Global, value: &Value) -> Result<Result<Text, Error>, Memory>
    ensures { IfOk result (λ cast. cast ≡ cast_value cast_to_string value.now) }
{
    match value {
        Value::One(element) => cast_to_string(alloc, element),
        Value::Missing => cast_to_string(alloc, &ArrayNode::Empty),
        Value::Grid(_) => Ok(Err(Error::NIMPL)),
    }
}
