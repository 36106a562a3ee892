ghost use Rattle.std.specs.Prelude.{◌≡◌};
ghost use Rattle.argument_core.specs.Check.{Gives};
ghost use Rattle.reference_functions.specs.Offsetting.{moved_in, moved_result, offset_call, range_result};

use argument_core::{Stop, number_if, number_in, three_to_five};
use book_core::Reads;
use call_core::Steps;
use grid_core::CalcResult;
use reference_core::offset_of;
use result_core::{Found, range_found};
use value_core::{CellReferenceIndex, Range};

fn range_result(range: Range) -> CalcResult
    ensures { result ≡ range_result range }
{
    CalcResult::Range {
        left: range.left,
        right: range.right,
    }
}

fn moved_result(
    reference: Range,
    rows: i64,
    columns: i64,
    height: Option<i64>,
    width: Option<i64>,
) -> Result<CalcResult, Stop>
    ensures { Gives result (moved_result reference rows columns height width) }
{
    match offset_of(reference, rows, columns, height, width) {
        Ok(range) => Ok(range_result(range)),
        Err(error) => Err(Stop::Wrong(error)),
    }
}

fn moved_in<B: Reads<L>, L>(
    book: &B,
    cell: CellReferenceIndex,
    reference: Range,
    second: Found,
    third: Found,
    fourth: Option<Found>,
    fifth: Option<Found>,
    steps: &mut Steps<L>,
) -> Result<CalcResult, Stop>
    ensures { Gives result (moved_in (B.contents book.now) cell reference second third fourth fifth) }
{
    let rows = number_in(book, cell, second, steps)?;
    let columns = number_in(book, cell, third, steps)?;
    let height = number_if(book, cell, fourth, steps)?;
    let width = number_if(book, cell, fifth, steps)?;
    moved_result(reference, rows, columns, height, width)
}

/// OFFSET of three to five arguments: a reference, numbers of rows and columns from it, which are cut toward zero, and a height
/// and a width, which are those of the reference without them. The answer is a range, as `offset_of` tells it; its cells are not
/// read.
pub fn offset_call<B: Reads<L>, L>(
    book: &B,
    cell: CellReferenceIndex,
    args: Vec<Found>,
    steps: &mut Steps<L>,
) -> Result<CalcResult, Stop>
    ensures { Gives result (offset_call (B.contents book.now) cell args.items) }
{
    let asked = three_to_five(args)?;
    match range_found(asked.first) {
        Ok(reference) => moved_in(
            book,
            cell,
            reference,
            asked.second,
            asked.third,
            asked.fourth,
            asked.fifth,
            steps,
        ),
        Err(error) => Err(Stop::Wrong(error)),
    }
}
