ghost use Rattle.std.specs.Prelude.{◌≡◌, IfOk};
ghost use Rattle.argument_core.specs.Check.{Gives};
ghost use Rattle.array_functions.specs.Kept.{filter_call, filtered, flatten_call, if_nothing, mode_in, to_column_call, to_row_call, trim_call, trimmed, unique_call, unless_other};

use argument_core::{Stop, array_in, int_or, is_missing, one_to_three, truth_or, two_or_three};
use book_core::Reads;
use call_core::Steps;
use grid_core::CalcResult;
use kept_ops::{Filtered, filter, flatten, trim, unique};
use number_core::saturating_i64_to_i32;
use rectangle_core::Grid;
use result_core::{Found, of_value};
use std::alloc::Global;
use value_core::{CellReferenceIndex, Error, Memory};

/// UNIQUE of one to three arguments: an array, whether its columns are compared and not its rows, and whether only those are kept
/// that come once. `#CALC!` where none is.
pub fn unique_call<B: Reads<L>, L>(
    alloc: Global,
    book: &B,
    cell: CellReferenceIndex,
    args: Vec<Found>,
    steps: &mut Steps<L>,
) -> Result<CalcResult, Stop>
    ensures { Gives result (unique_call (B.contents book.now) cell args.items) }
{
    let asked = one_to_three(args)?;
    let grid = array_in(alloc, book, cell, asked.first, steps)?;
    let by_column = truth_or(book, cell, asked.second, false, steps)?;
    let exactly_once = truth_or(book, cell, asked.third, false, steps)?;
    let answer = unique(alloc, cell, &grid, by_column, exactly_once)?;
    Ok(answer)
}

fn if_nothing<B: Reads<L>, L>(
    alloc: Global,
    book: &B,
    cell: CellReferenceIndex,
    found: Option<Found>,
    steps: &mut Steps<L>,
) -> Result<CalcResult, Stop>
    ensures { Gives result (if_nothing (B.contents book.now) cell found) }
{
    match found {
        Some(found) => {
            if is_missing(&found) {
                return Err(Stop::Wrong(Error::CALC));
            }
            let value = found.into_value(alloc, book, cell, steps)?;
            Ok(of_value(cell, value))
        }
        None => Err(Stop::Wrong(Error::CALC)),
    }
}

fn filtered<B: Reads<L>, L>(
    alloc: Global,
    book: &B,
    cell: CellReferenceIndex,
    third: Option<Found>,
    kept: Filtered,
    steps: &mut Steps<L>,
) -> Result<CalcResult, Stop>
    ensures { Gives result (filtered (B.contents book.now) cell third kept) }
{
    match kept {
        Filtered::Kept(grid) => Ok(CalcResult::Array(grid)),
        Filtered::Nothing => if_nothing(alloc, book, cell, third, steps),
        Filtered::Wrong(error) => Err(Stop::Wrong(error)),
    }
}

/// FILTER of two or three arguments: an array, a mask, and what is answered where the mask keeps nothing, which is `#CALC!`
/// without it or where it is missing. The first text of the mask is `#VALUE!` and its first error that error, whichever comes
/// first; a mask that fits neither the rows nor the columns is `#VALUE!`.
pub fn filter_call<B: Reads<L>, L>(
    alloc: Global,
    book: &B,
    cell: CellReferenceIndex,
    args: Vec<Found>,
    steps: &mut Steps<L>,
) -> Result<CalcResult, Stop>
    ensures { Gives result (filter_call (B.contents book.now) cell args.items) }
{
    let asked = two_or_three(args)?;
    let grid = array_in(alloc, book, cell, asked.first, steps)?;
    let mask = array_in(alloc, book, cell, asked.second, steps)?;
    let kept = filter(alloc, &grid, &mask)?;
    filtered(alloc, book, cell, asked.third, kept, steps)
}

fn unless_other(number: i64) -> Result<i64, Stop>
    ensures { Gives result (unless_other number) }
{
    if 0 <= number && number <= 3 {
        Ok(number)
    } else {
        Err(Stop::Wrong(Error::VALUE))
    }
}

fn mode_in<B: Reads<L>, L>(
    book: &B,
    cell: CellReferenceIndex,
    default: i64,
    found: Option<Found>,
    steps: &mut Steps<L>,
) -> Result<i64, Stop>
    ensures { Gives result (mode_in (B.contents book.now) cell default found) }
{
    let number = int_or(book, cell, found, default, steps)?;
    unless_other(number)
}

fn flatten_call<B: Reads<L>, L>(
    alloc: Global,
    book: &B,
    cell: CellReferenceIndex,
    args: Vec<Found>,
    as_column: bool,
    steps: &mut Steps<L>,
) -> Result<CalcResult, Stop>
    ensures { Gives result (flatten_call as_column (B.contents book.now) cell args.items) }
{
    let asked = one_to_three(args)?;
    let grid = array_in(alloc, book, cell, asked.first, steps)?;
    let ignore = mode_in(book, cell, 0, asked.second, steps)?;
    let by_column = truth_or(book, cell, asked.third, false, steps)?;
    let answer = flatten(alloc, cell, &grid, ignore, by_column, as_column)?;
    Ok(answer)
}

/// TOCOL of one to three arguments: an array, what is left out of it (0 nothing, 1 blanks, 2 errors, 3 both; any other number is
/// `#VALUE!`), and whether its elements go by columns and not by rows. They stand in one column. `#CALC!` where none is left.
pub fn to_column_call<B: Reads<L>, L>(
    alloc: Global,
    book: &B,
    cell: CellReferenceIndex,
    args: Vec<Found>,
    steps: &mut Steps<L>,
) -> Result<CalcResult, Stop>
    ensures { Gives result (to_column_call (B.contents book.now) cell args.items) }
{
    flatten_call(alloc, book, cell, args, true, steps)
}

/// TOROW of one to three arguments: as TOCOL, in one row.
pub fn to_row_call<B: Reads<L>, L>(
    alloc: Global,
    book: &B,
    cell: CellReferenceIndex,
    args: Vec<Found>,
    steps: &mut Steps<L>,
) -> Result<CalcResult, Stop>
    ensures { Gives result (to_row_call (B.contents book.now) cell args.items) }
{
    flatten_call(alloc, book, cell, args, false, steps)
}

fn trimmed(
    alloc: Global,
    cell: CellReferenceIndex,
    grid: &Grid,
    rows_mode: i64,
    columns_mode: i64,
) -> Result<CalcResult, Memory>
    ensures { IfOk result (λ answer. answer ≡ trimmed cell rows_mode columns_mode grid.now) }
{
    let rows_mode = saturating_i64_to_i32(rows_mode);
    let columns_mode = saturating_i64_to_i32(columns_mode);
    trim(alloc, cell, grid, rows_mode, columns_mode)
}

/// TRIMRANGE of one to three arguments: an array, and which of the rows and of the columns at its ends go that are blank throughout
/// (0 none, 1 leading ones, 2 trailing ones, 3 both, as without the argument; any other number is `#VALUE!`). `#REF!` where
/// nothing is left.
pub fn trim_call<B: Reads<L>, L>(
    alloc: Global,
    book: &B,
    cell: CellReferenceIndex,
    args: Vec<Found>,
    steps: &mut Steps<L>,
) -> Result<CalcResult, Stop>
    ensures { Gives result (trim_call (B.contents book.now) cell args.items) }
{
    let asked = one_to_three(args)?;
    let grid = array_in(alloc, book, cell, asked.first, steps)?;
    let rows_mode = int_or(book, cell, asked.second, 3, steps)?;
    let columns_mode = int_or(book, cell, asked.third, 3, steps)?;
    let answer = trimmed(alloc, cell, &grid, rows_mode, columns_mode)?;
    Ok(answer)
}
