ghost use Rattle.std.specs.Prelude.{◌≡◌, ◌≤◌};
ghost use Rattle.argument_core.specs.Check.{Gives};
ghost use Rattle.array_functions.specs.Sizes.{expand_call, line_in, unless_block, wrap_columns_call, wrap_rows_call};

use argument_core::{Stop, array_in, pad_in, size_in, size_or, two_or_three, two_to_four};
use array_ops::{expand, wrap_columns, wrap_rows};
use book_core::Reads;
use call_core::Steps;
use grid_core::CalcResult;
use rectangle_core::Grid;
use result_core::Found;
use std::alloc::Global;
use value_core::{CellReferenceIndex, Error};

/// EXPAND of two to four arguments: an array, a number of rows, a number of columns or those of the array, which are cut toward
/// zero, and an element for what is left or `#N/A`. `#VALUE!` for fewer rows or columns than the array has, and the error of an
/// array that is too large under a limit of at most 16777216 elements.
pub fn expand_call<B: Reads<L>, L>(
    alloc: Global,
    book: &B,
    limit: usize,
    cell: CellReferenceIndex,
    args: Vec<Found>,
    steps: &mut Steps<L>,
) -> Result<CalcResult, Stop>
    requires { limit ≤ 16777216 }
    ensures { Gives result (expand_call (B.contents book.now) limit cell args.items) }
{
    let asked = two_to_four(args)?;
    let grid = array_in(alloc, book, cell, asked.first, steps)?;
    let rows = size_in(book, cell, asked.second, steps)?;
    let columns = size_or(book, cell, asked.third, grid.columns(), steps)?;
    let pad = pad_in(alloc, book, cell, asked.fourth, steps)?;
    let answer = expand(alloc, cell, &grid, rows, columns, &pad, limit)?;
    Ok(answer)
}

fn unless_block(grid: Grid) -> Result<Grid, Stop>
    ensures { Gives result (unless_block grid) }
{
    if grid.rows() == 1 || grid.columns() == 1 {
        Ok(grid)
    } else {
        Err(Stop::Wrong(Error::VALUE))
    }
}

fn line_in<B: Reads<L>, L>(
    alloc: Global,
    book: &B,
    cell: CellReferenceIndex,
    found: Found,
    steps: &mut Steps<L>,
) -> Result<Grid, Stop>
    ensures { Gives result (line_in (B.contents book.now) cell found) }
{
    let grid = array_in(alloc, book, cell, found, steps)?;
    unless_block(grid)
}

/// WRAPROWS of two or three arguments: an array of one row or one column, else `#VALUE!`, how many of its elements stand in a row,
/// cut toward zero, and an element for what is left or `#N/A`. `#VALUE!` for 0, and the error of an array that is too large under
/// a limit of at most 16777216 elements.
pub fn wrap_rows_call<B: Reads<L>, L>(
    alloc: Global,
    book: &B,
    limit: usize,
    cell: CellReferenceIndex,
    args: Vec<Found>,
    steps: &mut Steps<L>,
) -> Result<CalcResult, Stop>
    requires { limit ≤ 16777216 }
    ensures { Gives result (wrap_rows_call (B.contents book.now) limit cell args.items) }
{
    let asked = two_or_three(args)?;
    let grid = line_in(alloc, book, cell, asked.first, steps)?;
    let count = size_in(book, cell, asked.second, steps)?;
    let pad = pad_in(alloc, book, cell, asked.third, steps)?;
    let answer = wrap_rows(alloc, cell, &grid, count, &pad, limit)?;
    Ok(answer)
}

/// WRAPCOLS of two or three arguments: as WRAPROWS, in columns.
pub fn wrap_columns_call<B: Reads<L>, L>(
    alloc: Global,
    book: &B,
    limit: usize,
    cell: CellReferenceIndex,
    args: Vec<Found>,
    steps: &mut Steps<L>,
) -> Result<CalcResult, Stop>
    requires { limit ≤ 16777216 }
    ensures { Gives result (wrap_columns_call (B.contents book.now) limit cell args.items) }
{
    let asked = two_or_three(args)?;
    let grid = line_in(alloc, book, cell, asked.first, steps)?;
    let count = size_in(book, cell, asked.second, steps)?;
    let pad = pad_in(alloc, book, cell, asked.third, steps)?;
    let answer = wrap_columns(alloc, cell, &grid, count, &pad, limit)?;
    Ok(answer)
}
