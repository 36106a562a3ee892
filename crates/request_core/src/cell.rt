ghost use Rattle.std.specs.Prelude.{map};
ghost use Rattle.serde_json.specs.View.{view};
ghost use Rattle.value_json.specs.Reading.{Finds, Gives};
ghost use Rattle.request_core.specs.Cells.{only_if, position_of, position_in, optional_text_at, cell_in};

use serde_json::Value;
use std::alloc::Global;
use value_core::{ArrayNode, CellReferenceIndex, Text};
use value_json::{
    FormError, check_length, read_array, read_i32, read_item, read_name, read_u32, read_value,
};

/// A cell of the book: where it lies, and what it holds.
#[derive(Drop)]
pub struct Cell {
    pub position: CellReferenceIndex,
    pub value: ArrayNode,
    pub num_fmt: Option<Text>,
    pub formula: Option<Text>,
}

/// Where a cell lies: `[sheet, row, column]`.
#[tactic(auto, unfolding(crate::specs::Cells::position_in))]
pub(crate) fn read_position(value: &Value) -> Result<CellReferenceIndex, FormError>
    ensures { Finds result (position_in (view value.now)) }
{
    let items = read_array(value)?;
    check_length(items, 3)?;
    read_first_three(items)
}

#[tactic(auto, unfolding(crate::specs::Cells::position_of))]
fn read_first_three(items: &[Value]) -> Result<CellReferenceIndex, FormError>
    ensures { Finds result (position_of (map view items.now)) }
{
    let sheet = read_u32(items, 0)?;
    let row = read_i32(items, 1)?;
    let column = read_i32(items, 2)?;
    Ok(CellReferenceIndex { sheet, row, column })
}

/// A cell of a book with so many sheets: `[sheet, row, column, value]`, and behind it a number format and the text of a
/// formula, each of which may be null or left out.
#[tactic(auto, unfolding(crate::specs::Cells::cell_in))]
pub(crate) fn read_cell(alloc: Global, value: &Value, sheet_count: u32) -> Result<Cell, FormError>
    ensures { Gives result (cell_in sheet_count (view value.now)) }
{
    let items = read_array(value)?;
    check(items.len() <= 6)?;
    let position = read_first_three(items)?;
    check(position.is_on_sheet(sheet_count))?;
    let value = read_value(alloc, read_item(items, 3)?)?;
    let num_fmt = read_optional_text(alloc, items, 4)?;
    let formula = read_optional_text(alloc, items, 5)?;
    Ok(Cell {
        position,
        value,
        num_fmt,
        formula,
    })
}

fn check(holds: bool) -> Result<(), FormError>
    ensures { Finds result (only_if holds) }
{
    if holds {
        Ok(())
    } else {
        Err(FormError::NotOfForm)
    }
}

#[tactic(auto, unfolding(crate::specs::Cells::optional_text_at))]
fn read_optional_text(
    alloc: Global,
    items: &[Value],
    place: usize,
) -> Result<Option<Text>, FormError>
    ensures { Gives result (optional_text_at place (map view items.now)) }
{
    if place < items.len() {
        read_name(alloc, items, place)
    } else {
        Ok(None)
    }
}
