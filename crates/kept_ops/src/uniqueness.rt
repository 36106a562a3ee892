ghost use Rattle.std.specs.Prelude.{◌≡◌, IfOk};
ghost use Rattle.key_core.specs.Key.{row_key_of};
ghost use Rattle.kept_ops.specs.Lines.{one_line};
ghost use Rattle.kept_ops.specs.Unique.{line_keys, lines_or_calc, unique_of};

use crate::lines::Lines;
use crate::part::{columns_at, rows_at};
use grid_core::CalcResult;
use key_core::{RowKey, cell_key, kept_positions};
use rectangle_core::Grid;
use std::alloc::Global;
use value_core::{ArrayNode, CellReferenceIndex, Error, Memory};

/// UNIQUE: the rows, or by columns the columns, of a rectangle that no earlier one has the key of; with `exactly_once` those
/// that no other one has the key of. They stand in their order. Two rows have one key where at each column both elements are of
/// one kind and equal, texts where they are equal without case. None kept is `#CALC!` of the cell.
pub fn unique(
    alloc: Global,
    cell: CellReferenceIndex,
    grid: &Grid,
    by_column: bool,
    exactly_once: bool,
) -> Result<CalcResult, Memory>
    ensures { IfOk result (λ answer. answer ≡ unique_of cell by_column exactly_once grid.now) }
{
    let blank = ArrayNode::Empty;
    let lines = Lines::new(grid, &blank, by_column);
    let keys = line_keys(alloc, &lines)?;
    let kept = kept_positions(alloc, keys.as_slice(), exactly_once)?;
    lines_or_calc(alloc, cell, grid, by_column, kept.as_slice())
}

/// The key of each line.
fn line_keys(alloc: Global, lines: &Lines) -> Result<Vec<RowKey>, Memory>
    ensures { IfOk result (λ keys. keys.items ≡ line_keys lines.now.by_column lines.now.grid.now) }
{
    let mut keys = Vec::new(alloc);
    for line in 0..lines.count() {
        let key = line_key(alloc, lines, line)?;
        keys.push(key)?;
    }
    Ok(keys)
}

fn line_key(alloc: Global, lines: &Lines, line: usize) -> Result<RowKey, Memory>
    ensures { IfOk result (λ key. key ≡ row_key_of (one_line lines.now.by_column lines.now.grid.now line)) }
{
    let mut row = RowKey::new(alloc);
    for place in 0..lines.length() {
        let key = cell_key(alloc, lines.get(line, place))?;
        row.push(key)?;
    }
    Ok(row)
}

fn lines_or_calc(
    alloc: Global,
    cell: CellReferenceIndex,
    grid: &Grid,
    by_column: bool,
    kept: &[usize],
) -> Result<CalcResult, Memory>
    ensures { IfOk result (λ answer. answer ≡ lines_or_calc cell by_column grid.now kept.now) }
{
    if kept.is_empty() {
        return Ok(CalcResult::Error {
            error: Error::CALC,
            origin: cell,
        });
    }
    let made = if by_column {
        columns_at(alloc, grid, kept)?
    } else {
        rows_at(alloc, grid, kept)?
    };
    Ok(CalcResult::Array(made))
}
