ghost use Rattle.std.specs.Prelude.{◌≡◌, IfOk};
ghost use Rattle.result_core.specs.Finding.{array_of};

use book_core::{Reads, grid_of_range};
use call_core::Steps;
use grid_core::CalcResult;
use rectangle_core::Grid;
use std::alloc::Global;
use value_core::{ArrayNode, Error, Memory, Range};

/// A result as a rectangle: a range is read, one value is one by one, where a blank or missing one is the number 0.
/// An error is that error.
pub fn array_of<B: Reads<L>, L>(
    alloc: Global,
    book: &B,
    made: CalcResult,
    steps: &mut Steps<L>,
) -> Result<Result<Grid, Error>, Memory>
    ensures { IfOk result (λ array. array ≡ array_of (B.contents book.now) made) }
{
    let element = match made {
        CalcResult::Number(number) => ArrayNode::Number(number),
        CalcResult::Boolean(value) => ArrayNode::Boolean(value),
        CalcResult::String(text) => ArrayNode::String(text),
        CalcResult::Error { error, .. } => return Ok(Err(error)),
        CalcResult::Range { left, right } => {
            let grid = grid_of_range(alloc, book, Range { left, right }, steps)?;
            return Ok(Ok(grid));
        }
        CalcResult::Array(grid) => return Ok(Ok(grid)),
        CalcResult::EmptyCell => ArrayNode::Number(0),
        CalcResult::EmptyArg => ArrayNode::Number(0),
    };
    let grid = Grid::of_one(alloc, element)?;
    Ok(Ok(grid))
}
