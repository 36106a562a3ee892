ghost use Rattle.serde_json.specs.View.{view};
ghost use Rattle.std.specs.Prelude.{length, ◌<◌};
ghost use Rattle.request_core.specs.Cells.{AddsCell, FillsBook, cells_in};

use crate::cell::{Cell, read_cell};
use book_core::{Book, MemoryBook};
use serde_json::Value;
use std::alloc::Global;
use value_core::Texts;
use value_json::{FormError, read_array};

/// A book with these sheets and the cells of an array, each of them named once.
#[tactic(auto, unfolding(crate::specs::Cells::cells_in))]
pub(crate) fn read_book(
    alloc: Global,
    sheets: Texts,
    value: &Value,
) -> Result<MemoryBook, FormError>
    requires { length sheets < 4294967296 }
    ensures { FillsBook result sheets (cells_in (length sheets) (view value.now)) }
{
    let mut book = MemoryBook::with_sheets(alloc, sheets);
    let sheet_count = book.sheet_count();
    let items = read_array(value)?;
    for item in items {
        let cell = read_cell(alloc, item, sheet_count)?;
        add_cell(&mut book, cell)?;
    }
    Ok(book)
}

fn add_cell(book: &mut MemoryBook, cell: Cell) -> Result<(), FormError>
    ensures { AddsCell result book.old book.new cell }
{
    if book.holds(cell.position) {
        return Err(FormError::NotOfForm);
    }
    let Cell {
        position,
        value,
        num_fmt,
        formula,
    } = cell;
    book.set(position, value, num_fmt, formula)?;
    Ok(())
}
