//! The parts that a JSON text is written in.
ghost use Rattle.std.specs.Prelude.{◌∷◌, []};
ghost use Rattle.json.specs.Token.{begin_array, end_array, string};
ghost use Rattle.value_json.specs.Piece.{Writes, data_tokens, whole, text_or_null, number_or_null};

use json::Writer;
use value_core::{Memory, Text};

/// Opens an array whose first item is a tag.
#[inline(never)]
pub fn begin(writer: &mut Writer, tag: &str) -> Result<(), Memory>
    ensures { Writes result writer.old writer.new (begin_array ∷ string tag.now ∷ []) }
{
    writer.begin_array()?;
    writer.string(tag)?;
    Ok(())
}

/// Closes an array.
#[inline(never)]
pub fn end(writer: &mut Writer) -> Result<(), Memory>
    ensures { Writes result writer.old writer.new (end_array ∷ []) }
{
    writer.end_array()?;
    Ok(())
}

/// Writes a whole number.
pub fn write_whole(writer: &mut Writer, number: i64) -> Result<(), Memory>
    ensures { Writes result writer.old writer.new (data_tokens (whole number)) }
{
    writer.i64(number)?;
    Ok(())
}

/// Writes a text, or null where there is none.
pub fn write_text_or_null(writer: &mut Writer, text: &Option<Text>) -> Result<(), Memory>
    ensures { Writes result writer.old writer.new (data_tokens (text_or_null text.now)) }
{
    match text {
        Some(text) => writer.string(text.as_str())?,
        None => writer.null()?,
    }
    Ok(())
}

/// Writes a number, or null where there is none.
pub fn write_number_or_null(writer: &mut Writer, number: Option<u32>) -> Result<(), Memory>
    ensures { Writes result writer.old writer.new (data_tokens (number_or_null number)) }
{
    match number {
        Some(number) => write_whole(writer, i64::from(number))?,
        None => writer.null()?,
    }
    Ok(())
}
