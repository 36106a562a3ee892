ghost use Rattle.std.specs.Prelude.{◌≡◌, IfOk, length};
ghost use Rattle.argument_core.specs.Argument.{given_if};
ghost use Rattle.argument_core.specs.Check.{Gives, GivesAs, each};
ghost use Rattle.array_functions.specs.Parts.{choice_in, choose_columns_call, choose_rows_call, count_in, drop_call, take_call, transpose_call, unless_none, unless_zero};

use argument_core::{Stop, array_in, at_least_two, int_if, int_in, one, two_or_three};
use array_ops::{choose_columns, choose_rows, drop_rows_columns, is_choice, take, transpose_array};
use book_core::Reads;
use call_core::Steps;
use grid_core::CalcResult;
use result_core::Found;
use std::alloc::Global;
use value_core::{CellReferenceIndex, Error};

fn unless_zero(count: i64) -> Result<i64, Stop>
    ensures { Gives result (unless_zero count) }
{
    if count == 0 {
        Err(Stop::Wrong(Error::CALC))
    } else {
        Ok(count)
    }
}

/// How many rows or columns an argument asks to keep, cut toward zero; a negative number counts from the end. `#CALC!` for none.
pub fn count_in<B: Reads<L>, L>(
    book: &B,
    cell: CellReferenceIndex,
    found: Found,
    steps: &mut Steps<L>,
) -> Result<i64, Stop>
    ensures { Gives result (count_in (B.contents book.now) cell found) }
{
    let count = int_in(book, cell, found, steps)?;
    unless_zero(count)
}

/// How many rows or columns an argument asks to keep, if there is one.
pub fn count_if<B: Reads<L>, L>(
    book: &B,
    cell: CellReferenceIndex,
    found: Option<Found>,
    steps: &mut Steps<L>,
) -> Result<Option<i64>, Stop>
    ensures { Gives result (given_if (count_in (B.contents book.now) cell) found) }
{
    match found {
        Some(found) => {
            let count = count_in(book, cell, found, steps)?;
            Ok(Some(count))
        }
        None => Ok(None),
    }
}

/// TAKE of two or three arguments: an array, a number of rows, and a number of columns or all. They are cut toward zero; a
/// negative one counts from the end. `#CALC!` for 0, before the next argument is looked at.
pub fn take_call<B: Reads<L>, L>(
    alloc: Global,
    book: &B,
    cell: CellReferenceIndex,
    args: Vec<Found>,
    steps: &mut Steps<L>,
) -> Result<CalcResult, Stop>
    ensures { Gives result (take_call (B.contents book.now) cell args.items) }
{
    let asked = two_or_three(args)?;
    let grid = array_in(alloc, book, cell, asked.first, steps)?;
    let rows = count_in(book, cell, asked.second, steps)?;
    let columns = count_if(book, cell, asked.third, steps)?;
    let answer = take(alloc, cell, &grid, rows, columns)?;
    Ok(answer)
}

/// DROP of two or three arguments: an array, a number of rows, and a number of columns or none. They are cut toward zero; a
/// negative one counts from the end. `#CALC!` where nothing is left.
pub fn drop_call<B: Reads<L>, L>(
    alloc: Global,
    book: &B,
    cell: CellReferenceIndex,
    args: Vec<Found>,
    steps: &mut Steps<L>,
) -> Result<CalcResult, Stop>
    ensures { Gives result (drop_call (B.contents book.now) cell args.items) }
{
    let asked = two_or_three(args)?;
    let grid = array_in(alloc, book, cell, asked.first, steps)?;
    let rows = int_in(book, cell, asked.second, steps)?;
    let columns = int_if(book, cell, asked.third, steps)?;
    let answer = drop_rows_columns(alloc, cell, &grid, rows, columns)?;
    Ok(answer)
}

fn unless_none(total: usize, number: i64) -> Result<i64, Stop>
    ensures { Gives result (unless_none total number) }
{
    if is_choice(number, total) {
        Ok(number)
    } else {
        Err(Stop::Wrong(Error::VALUE))
    }
}

/// A number that names one of so many lines, cut toward zero: from the front the first has number 1, from the end the last has -1.
/// `#VALUE!` for one that names none.
pub fn choice_in<B: Reads<L>, L>(
    book: &B,
    cell: CellReferenceIndex,
    total: usize,
    found: Found,
    steps: &mut Steps<L>,
) -> Result<i64, Stop>
    ensures { Gives result (choice_in (B.contents book.now) cell total found) }
{
    let number = int_in(book, cell, found, steps)?;
    unless_none(total, number)
}

/// Numbers that each name one of so many lines, in their order.
#[tactic(auto, using(argument_core::proofs::Each::eaches))]
fn choices_in<B: Reads<L>, L>(
    alloc: Global,
    book: &B,
    cell: CellReferenceIndex,
    total: usize,
    args: Vec<Found>,
    steps: &mut Steps<L>,
) -> Result<Vec<i64>, Stop>
    ensures numbers { GivesAs (λ numbers. numbers.items) result (each (choice_in (B.contents book.now) cell total) args.items) }
    ensures count { IfOk result (λ numbers. length numbers.items ≡ length args.items) }
{
    let mut numbers = Vec::new(alloc);
    for arg in args {
        let number = choice_in(book, cell, total, arg, steps)?;
        numbers.push(number)?;
    }
    Ok(numbers)
}

/// CHOOSECOLS of at least two arguments: an array, and numbers of its columns, which are cut toward zero: from the front the first
/// has number 1, from the end the last has -1. `#VALUE!` for a number that names none, before the next argument is looked at.
pub fn choose_columns_call<B: Reads<L>, L>(
    alloc: Global,
    book: &B,
    cell: CellReferenceIndex,
    args: Vec<Found>,
    steps: &mut Steps<L>,
) -> Result<CalcResult, Stop>
    ensures { Gives result (choose_columns_call (B.contents book.now) cell args.items) }
{
    let asked = at_least_two(args)?;
    let grid = array_in(alloc, book, cell, asked.first, steps)?;
    let numbers = choices_in(alloc, book, cell, grid.columns(), asked.more, steps)?;
    let answer = choose_columns(alloc, cell, &grid, numbers.as_slice())?;
    Ok(answer)
}

/// CHOOSEROWS of at least two arguments: an array, and numbers of its rows, as CHOOSECOLS takes those of columns.
pub fn choose_rows_call<B: Reads<L>, L>(
    alloc: Global,
    book: &B,
    cell: CellReferenceIndex,
    args: Vec<Found>,
    steps: &mut Steps<L>,
) -> Result<CalcResult, Stop>
    ensures { Gives result (choose_rows_call (B.contents book.now) cell args.items) }
{
    let asked = at_least_two(args)?;
    let grid = array_in(alloc, book, cell, asked.first, steps)?;
    let numbers = choices_in(alloc, book, cell, grid.rows(), asked.more, steps)?;
    let answer = choose_rows(alloc, cell, &grid, numbers.as_slice())?;
    Ok(answer)
}

/// TRANSPOSE of one argument: an array with its rows as columns.
pub fn transpose_call<B: Reads<L>, L>(
    alloc: Global,
    book: &B,
    cell: CellReferenceIndex,
    args: Vec<Found>,
    steps: &mut Steps<L>,
) -> Result<CalcResult, Stop>
    ensures { Gives result (transpose_call (B.contents book.now) cell args.items) }
{
    let found = one(args)?;
    let grid = array_in(alloc, book, cell, found, steps)?;
    match transpose_array(alloc, grid) {
        Ok(answer) => Ok(CalcResult::Array(answer)),
        Err(_back) => Err(Stop::Memory),
    }
}
