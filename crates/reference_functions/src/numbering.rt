ghost use Rattle.std.specs.Prelude.{◌≡◌, ◌<◌, ◌+ℤ◌, pos, IfOk};
ghost use Rattle.book_core.specs.Contents.{line_count};
ghost use Rattle.argument_core.specs.Check.{Gives};
ghost use Rattle.reference_functions.specs.Numbering.{column_call, column_grid, column_numbers, column_of, line_number, numbered, row_call, row_grid, row_numbers, row_of};

use argument_core::{Stop, none_or_one};
use book_core::line_count;
use call_core::{Plain, Steps};
use grid_core::CalcResult;
use rectangle_core::{Grid, View, grid_of};
use reference_core::{columns_of, rows_of};
use result_core::{Found, range_found};
use std::alloc::Global;
use value_core::{ArrayNode, CellReferenceIndex, Memory, Range};

fn line_number(line: i32) -> i64
    ensures { result ≡ line_number line }
{
    line as i64 * 1000000
}

fn numbered(first: i32, last: i32, index: usize) -> ArrayNode
    requires { index < line_count first last }
    ensures { result ≡ numbered first index }
{
    ArrayNode::Number((first as i64 + index as i64) * 1000000)
}

/// The numbers of rows from the first to the last, below each other.
#[derive(Drop)]
struct RowNumbers {
    first: i32,
    last: i32,
}

impl<L> View<L> for RowNumbers {
    ghost row_count = { λ rows. line_count rows.first rows.last };

    ghost column_count = { λ _. 1 };

    ghost element = { λ rows i _. numbered rows.first i };

    fn rows(&self) -> usize {
        line_count(self.first, self.last)
    }

    fn columns(&self) -> usize {
        1
    }

    fn at(
        &self,
        _alloc: Global,
        row: usize,
        _column: usize,
        _steps: &mut Steps<L>,
    ) -> Result<ArrayNode, Memory> {
        Ok(numbered(self.first, self.last, row))
    }
}

/// The numbers of columns from the first to the last, beside each other.
#[derive(Drop)]
struct ColumnNumbers {
    first: i32,
    last: i32,
}

impl<L> View<L> for ColumnNumbers {
    ghost row_count = { λ _. 1 };

    ghost column_count = { λ columns. line_count columns.first columns.last };

    ghost element = { λ columns _ j. numbered columns.first j };

    fn rows(&self) -> usize {
        1
    }

    fn columns(&self) -> usize {
        line_count(self.first, self.last)
    }

    fn at(
        &self,
        _alloc: Global,
        _row: usize,
        column: usize,
        _steps: &mut Steps<L>,
    ) -> Result<ArrayNode, Memory> {
        Ok(numbered(self.first, self.last, column))
    }
}

fn row_grid(alloc: Global, range: Range) -> Result<Grid, Memory>
    ensures { IfOk result (λ grid. grid ≡ row_grid range) }
{
    let numbers = RowNumbers {
        first: range.left.row,
        last: range.right.row,
    };
    let mut steps = Steps::new(Plain);
    let grid = grid_of(alloc, &numbers, &mut steps)?;
    Ok(grid)
}

fn row_numbers(alloc: Global, range: Range) -> Result<CalcResult, Memory>
    ensures { IfOk result (λ made. made ≡ row_numbers range) }
{
    if rows_of(range) == 1 {
        return Ok(CalcResult::Number(line_number(range.left.row)));
    }
    let grid = row_grid(alloc, range)?;
    Ok(CalcResult::Array(grid))
}

fn column_grid(alloc: Global, range: Range) -> Result<Grid, Memory>
    ensures { IfOk result (λ grid. grid ≡ column_grid range) }
{
    let numbers = ColumnNumbers {
        first: range.left.column,
        last: range.right.column,
    };
    let mut steps = Steps::new(Plain);
    let grid = grid_of(alloc, &numbers, &mut steps)?;
    Ok(grid)
}

fn column_numbers(alloc: Global, range: Range) -> Result<CalcResult, Memory>
    ensures { IfOk result (λ made. made ≡ column_numbers range) }
{
    if columns_of(range) == 1 {
        return Ok(CalcResult::Number(line_number(range.left.column)));
    }
    let grid = column_grid(alloc, range)?;
    Ok(CalcResult::Array(grid))
}

fn row_of(alloc: Global, cell: CellReferenceIndex, found: Option<Found>) -> Result<CalcResult, Stop>
    ensures { Gives result (row_of cell found) }
{
    match found {
        Some(found) => match range_found(found) {
            Ok(range) => {
                let made = row_numbers(alloc, range)?;
                Ok(made)
            }
            Err(error) => Err(Stop::Wrong(error)),
        },
        None => Ok(CalcResult::Number(line_number(cell.row))),
    }
}

fn column_of(
    alloc: Global,
    cell: CellReferenceIndex,
    found: Option<Found>,
) -> Result<CalcResult, Stop>
    ensures { Gives result (column_of cell found) }
{
    match found {
        Some(found) => match range_found(found) {
            Ok(range) => {
                let made = column_numbers(alloc, range)?;
                Ok(made)
            }
            Err(error) => Err(Stop::Wrong(error)),
        },
        None => Ok(CalcResult::Number(line_number(cell.column))),
    }
}

/// ROW of none or one argument: the number of the formula's row, or that of a reference's row; of a reference of several rows a
/// column of their numbers. `#VALUE!` for what is no reference; an error is that error.
pub fn row_call(
    alloc: Global,
    cell: CellReferenceIndex,
    args: Vec<Found>,
) -> Result<CalcResult, Stop>
    ensures { Gives result (row_call cell args.items) }
{
    let asked = none_or_one(args)?;
    row_of(alloc, cell, asked)
}

/// COLUMN of none or one argument: the number of the formula's column, or that of a reference's column; of a reference of
/// several columns a row of their numbers. `#VALUE!` for what is no reference; an error is that error.
pub fn column_call(
    alloc: Global,
    cell: CellReferenceIndex,
    args: Vec<Found>,
) -> Result<CalcResult, Stop>
    ensures { Gives result (column_call cell args.items) }
{
    let asked = none_or_one(args)?;
    column_of(alloc, cell, asked)
}
