ghost use Rattle.std.specs.Prelude.{◌≡◌, ◌≤◌, Some};
ghost use Rattle.argument_core.specs.Check.{Gives};
ghost use Rattle.array_functions.specs.Progression.{count_in, count_of, sequence_call, size_of_sequence, unless_large};

use argument_core::{Stop, one_to_four, or_one};
use array_ops::{checked, count_refused, sequence};
use book_core::Reads;
use call_core::Steps;
use grid_core::CalcResult;
use number_core::floor;
use result_core::Found;
use std::alloc::Global;
use value_core::CellReferenceIndex;

fn count_of(number: i64) -> Result<i64, Stop>
    ensures { Gives result (count_of number) }
{
    let count = floor(number);
    match count_refused(count) {
        Some(error) => Err(Stop::Wrong(error)),
        None => Ok(count),
    }
}

fn count_in<B: Reads<L>, L>(
    book: &B,
    cell: CellReferenceIndex,
    found: Option<Found>,
    steps: &mut Steps<L>,
) -> Result<i64, Stop>
    ensures { Gives result (count_in (B.contents book.now) cell found) }
{
    let number = or_one(book, cell, found, steps)?;
    count_of(number)
}

fn unless_large(limit: usize, rows: i64, columns: i64) -> Result<(i64, i64), Stop>
    ensures { Gives result (unless_large limit rows columns) }
{
    let height = rows.unsigned_abs() as usize;
    let width = columns.unsigned_abs() as usize;
    match checked(height, width, limit) {
        Some(error) => Err(Stop::Wrong(error)),
        None => Ok((rows, columns)),
    }
}

fn size_of_sequence<B: Reads<L>, L>(
    book: &B,
    limit: usize,
    cell: CellReferenceIndex,
    first: Option<Found>,
    second: Option<Found>,
    steps: &mut Steps<L>,
) -> Result<(i64, i64), Stop>
    ensures { Gives result (size_of_sequence (B.contents book.now) limit cell first second) }
{
    let rows = count_in(book, cell, first, steps)?;
    let columns = count_in(book, cell, second, steps)?;
    unless_large(limit, rows, columns)
}

/// SEQUENCE of one to four arguments: a number of rows and one of columns, of which the floors count, the start and the step. A
/// missing or absent one is 1. `#CALC!` for no row and `#VALUE!` for a negative number of rows, then the same for columns, then
/// the error of an array that is too large under a limit of at most 16777216 elements; only then the start and the step are
/// looked at.
pub fn sequence_call<B: Reads<L>, L>(
    alloc: Global,
    book: &B,
    limit: usize,
    cell: CellReferenceIndex,
    args: Vec<Found>,
    steps: &mut Steps<L>,
) -> Result<CalcResult, Stop>
    requires { limit ≤ 16777216 }
    ensures { Gives result (sequence_call (B.contents book.now) limit cell args.items) }
{
    let asked = one_to_four(args)?;
    let (rows, columns) = size_of_sequence(
        book,
        limit,
        cell,
        Some(asked.first),
        asked.second,
        steps,
    )?;
    let start = or_one(book, cell, asked.third, steps)?;
    let step = or_one(book, cell, asked.fourth, steps)?;
    let answer = sequence(alloc, cell, rows, columns, start, step, limit)?;
    Ok(answer)
}
