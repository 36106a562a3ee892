ghost use Rattle.std.specs.Prelude.{◌≡◌};
ghost use Rattle.argument_core.specs.Check.{Gives};
ghost use Rattle.reference_functions.specs.Sizing.{areas_call, areas_in, columns_call, columns_in, count_result, rows_call, rows_in};

use argument_core::{Stop, one};
use book_core::{Reads, line_count};
use call_core::Steps;
use grid_core::CalcResult;
use number_core::number_in_range;
use result_core::Found;
use std::alloc::Global;
use value_core::CellReferenceIndex;

fn rows_in(made: CalcResult) -> Result<usize, Stop>
    ensures { Gives result (rows_in made) }
{
    match made {
        CalcResult::Range { left, right } => Ok(line_count(left.row, right.row)),
        CalcResult::Array(grid) => Ok(grid.rows()),
        CalcResult::Error { error, .. } => Err(Stop::Wrong(error)),
        other => {
            drop(other);
            Ok(1)
        }
    }
}

fn columns_in(made: CalcResult) -> Result<usize, Stop>
    ensures { Gives result (columns_in made) }
{
    match made {
        CalcResult::Range { left, right } => Ok(line_count(left.column, right.column)),
        CalcResult::Array(grid) => Ok(grid.columns()),
        CalcResult::Error { error, .. } => Err(Stop::Wrong(error)),
        other => {
            drop(other);
            Ok(1)
        }
    }
}

fn count_result(count: usize) -> Result<CalcResult, Stop>
    ensures { Gives result (count_result count) }
{
    match number_in_range(count as i128 * 1000000) {
        Ok(number) => Ok(CalcResult::Number(number)),
        Err(error) => Err(Stop::Wrong(error)),
    }
}

/// ROWS of one argument: how many rows a reference or an array has; 1 for any other value, and an error for itself. It takes no
/// memory and reads no cell.
pub fn rows_call(args: Vec<Found>) -> Result<CalcResult, Stop>
    ensures { Gives result (rows_call args.items) }
{
    let found = one(args)?;
    let count = rows_in(found.into_reference())?;
    count_result(count)
}

/// COLUMNS of one argument: how many columns a reference or an array has; 1 for any other value, and an error for itself. It
/// takes no memory and reads no cell.
pub fn columns_call(args: Vec<Found>) -> Result<CalcResult, Stop>
    ensures { Gives result (columns_call args.items) }
{
    let found = one(args)?;
    let count = columns_in(found.into_reference())?;
    count_result(count)
}

fn areas_in(made: CalcResult) -> Result<CalcResult, Stop>
    ensures { Gives result (areas_in made) }
{
    match made {
        CalcResult::Error { error, .. } => Err(Stop::Wrong(error)),
        other => {
            drop(other);
            Ok(CalcResult::Number(1000000))
        }
    }
}

/// AREAS of one argument: 1, and an error for itself. A reference to a cell stands for the cell's value, so that the error in it
/// is the answer.
pub fn areas_call<B: Reads<L>, L>(
    alloc: Global,
    book: &B,
    cell: CellReferenceIndex,
    args: Vec<Found>,
    steps: &mut Steps<L>,
) -> Result<CalcResult, Stop>
    ensures { Gives result (areas_call (B.contents book.now) cell args.items) }
{
    let found = one(args)?;
    let made = found.into_context(alloc, book, cell, steps)?;
    areas_in(made)
}
