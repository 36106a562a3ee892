ghost use Rattle.std.specs.Prelude.{◌≡◌, ◌<◌, ◌≤◌, IfOk, None, length, map};
ghost use Rattle.position_core.specs.Check.{refused};
ghost use Rattle.position_core.specs.Place.{HasNumbers};
ghost use Rattle.array_ops.specs.Reshaped.{not_available, reshaped_answer, reshaped_grid, size_of};

use crate::reshaped::{filled, sizes_of};
use grid_core::CalcResult;
use position_core::{Fitted, Reshape, reshaped_size};
use rectangle_core::Grid;
use std::alloc::Global;
use value_core::{ArrayNode, CellReferenceIndex, Error, Memory};

/// The greatest number of elements that a limit allows.
pub(crate) const GREATEST_LIMIT: usize = 16777216;

/// The error that a call answers, which comes from a cell, or its array. More rows or columns than a `usize` counts want
/// memory.
pub(crate) fn reshaped_answer(
    alloc: Global,
    cell: CellReferenceIndex,
    reshape: &Reshape,
    grids: &[Grid],
    pad: &ArrayNode,
    limit: usize,
) -> Result<CalcResult, Memory>
    requires some { 0 < length grids.now }
    requires numbers { HasNumbers reshape.now }
    requires limit { limit ≤ 16777216 }
    ensures { IfOk result (λ answer. answer ≡ reshaped_answer reshape.now grids.now pad.now limit cell) }
{
    let sizes = sizes_of(alloc, grids)?;
    match reshaped_size(reshape, sizes.as_slice(), limit) {
        Fitted::Size(size) => {
            let grid = filled(alloc, reshape, grids, sizes.as_slice(), size, pad)?;
            Ok(CalcResult::Array(grid))
        }
        Fitted::Wrong(error) => Ok(CalcResult::Error {
            error,
            origin: cell,
        }),
        Fitted::TooLong => Err(Memory),
    }
}

/// The array of a call that answers no error.
pub(crate) fn reshaped_grid(
    alloc: Global,
    reshape: &Reshape,
    grids: &[Grid],
) -> Result<Grid, Memory>
    requires some { 0 < length grids.now }
    requires numbers { HasNumbers reshape.now }
    requires fits { refused reshape.now (map size_of grids.now) 16777216 ≡ None }
    ensures { IfOk result (λ grid. grid ≡ reshaped_grid reshape.now grids.now not_available) }
{
    let sizes = sizes_of(alloc, grids)?;
    let pad = ArrayNode::Error(Error::NA);
    match reshaped_size(reshape, sizes.as_slice(), GREATEST_LIMIT) {
        Fitted::Size(size) => filled(alloc, reshape, grids, sizes.as_slice(), size, &pad),
        _ => Err(Memory),
    }
}
