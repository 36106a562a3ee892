//! Rows of values.
ghost use Rattle.std.specs.Prelude.{◌≡◌, ◌++◌, [], ◌∷◌, OnOk, IfErr};
ghost use Rattle.serde_json.specs.View.{view};
ghost use Rattle.value_json.specs.Piece.{Writes, data_tokens};
ghost use Rattle.value_json.specs.Reading.{Gives, GivesBy};
ghost use Rattle.value_json.specs.Values.{row_in, rows_in, row_data, rows_data};

use crate::error::FormError;
use crate::field::read_array;
use crate::piece::end;
use crate::value::{read_value, write_value};
use json::Writer;
use rectangle_core::Grid;
use serde_json::Value;
use std::alloc::Global;
use value_core::{ArrayNode, Memory, Rows};

#[tactic(auto, unfolding(crate::specs::Values::row_in))]
fn read_row(alloc: Global, value: &Value) -> Result<Vec<ArrayNode>, FormError>
    ensures { GivesBy (λ row. row.items) result (row_in (view value.now)) }
{
    let mut row = Vec::new(alloc);
    for item in read_array(value)? {
        row.push(read_value(alloc, item)?)?;
    }
    Ok(row)
}

fn push_row(rows: &mut Rows, row: Vec<ArrayNode>) -> Result<(), FormError>
    ensures done { OnOk result (rows.new ≡ rows.old ++ row.items ∷ []) }
    ensures memory { IfErr result (λ error. error ≡ FormError.Memory) }
{
    match rows.push(row) {
        Ok(()) => Ok(()),
        Err(_row) => Err(FormError::Memory),
    }
}

/// The rows of an array of rows, which are arrays of values. They may have any lengths, and there may be none.
#[tactic(auto, unfolding(crate::specs::Values::rows_in))]
pub fn read_rows(alloc: Global, value: &Value) -> Result<Rows, FormError>
    ensures { Gives result (rows_in (view value.now)) }
{
    let mut rows = Rows::new(alloc);
    for item in read_array(value)? {
        let row = read_row(alloc, item)?;
        push_row(&mut rows, row)?;
    }
    Ok(rows)
}

/// Writes rows of values, as an array of arrays.
#[inline(never)]
pub fn write_rows(writer: &mut Writer, rows: &Rows) -> Result<(), Memory>
    ensures { Writes result writer.old writer.new (data_tokens (rows_data rows.now)) }
{
    writer.begin_array()?;
    for row in 0..rows.len() {
        match rows.get(row) {
            Some(values) => write_row(writer, values)?,
            None => unreachable!(),
        }
    }
    end(writer)?;
    Ok(())
}

/// Writes a rectangle of values, as an array of arrays.
#[inline(never)]
pub fn write_grid(writer: &mut Writer, grid: &Grid) -> Result<(), Memory>
    ensures { Writes result writer.old writer.new (data_tokens (rows_data grid.now)) }
{
    writer.begin_array()?;
    for row in 0..grid.rows() {
        match grid.row(row) {
            Some(values) => write_row(writer, values)?,
            None => unreachable!(),
        }
    }
    end(writer)?;
    Ok(())
}

fn write_row(writer: &mut Writer, values: &[ArrayNode]) -> Result<(), Memory>
    ensures { Writes result writer.old writer.new (data_tokens (row_data values.now)) }
{
    writer.begin_array()?;
    for value in values {
        write_value(writer, value)?;
    }
    end(writer)?;
    Ok(())
}
