ghost use Rattle.std.specs.Prelude.{◌≡◌, IfOk};
ghost use Rattle.result_core.specs.Finding.{result_of};
ghost use Rattle.result_core.specs.Intersection.{first_of, intersection_found, met};

use crate::found::{Found, result_of, wrong};
use book_core::implicit_intersection;
use grid_core::CalcResult;
use rectangle_core::Grid;
use std::alloc::Global;
use value_core::{CellReferenceIndex, Error, Memory, Range};

fn met(cell: CellReferenceIndex, found: Option<CellReferenceIndex>) -> Found
    ensures { result ≡ met cell found }
{
    match found {
        Some(at) => Found::Cell(at),
        None => Found::Same(wrong(cell, Error::REF)),
    }
}

fn first_result(alloc: Global, cell: CellReferenceIndex, grid: &Grid) -> Result<CalcResult, Memory>
    ensures { IfOk result (λ made. made ≡ result_of cell (first_of grid.now)) }
{
    match grid.get(0, 0) {
        Some(element) => result_of(alloc, cell, element),
        None => Ok(CalcResult::EmptyCell),
    }
}

/// What an `@` makes of what stands under it, taken with reference: of a range the cell that it finds there, else `#REF!`;
/// of an array its first element; one value stays.
pub fn intersection_found(
    alloc: Global,
    cell: CellReferenceIndex,
    child: CalcResult,
) -> Result<Found, Memory>
    ensures { IfOk result (λ found. found ≡ intersection_found cell child) }
{
    match child {
        CalcResult::Range { left, right } => {
            Ok(met(cell, implicit_intersection(&cell, &Range { left, right })))
        }
        CalcResult::Array(grid) => {
            let first = first_result(alloc, cell, &grid)?;
            Ok(Found::Same(first))
        }
        other => Ok(Found::Same(other)),
    }
}
