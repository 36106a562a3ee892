ghost use Rattle.std.specs.Prelude.{◌≡◌, ◌<◌, ◌≤◌, [], ◌∷◌, IfOk, IfErr, length};
ghost use Rattle.position_core.specs.Place.{HasNumbers};
ghost use Rattle.position_core.specs.declared.reshape.Reshape.TheVariants.{ChooseColumns, ChooseRows, DropOff, Expand, Take, Transpose, WrapColumns, WrapRows};
ghost use Rattle.array_ops.specs.Reshaped.{not_available, plain_answer, reshaped_answer, reshaped_grid};

use crate::answer::{GREATEST_LIMIT, reshaped_answer, reshaped_grid};
use grid_core::CalcResult;
use position_core::{Numbers, Reshape};
use rectangle_core::Grid;
use std::alloc::Global;
use std::slice;
use value_core::{ArrayNode, CellReferenceIndex, Error, Memory};

/// TAKE: the first so many rows and columns, or the last ones of a negative count; all columns without a count of them.
/// `#CALC!` for a count of 0.
pub fn take(
    alloc: Global,
    cell: CellReferenceIndex,
    grid: &Grid,
    rows: i64,
    columns: Option<i64>,
) -> Result<CalcResult, Memory>
    ensures { IfOk result (λ answer. answer ≡ plain_answer (Take rows columns) grid.now cell) }
{
    plain_answer(alloc, cell, &Reshape::Take { rows, columns }, grid)
}

/// DROP: all but the first so many rows and columns, or but the last ones of a negative count; all columns without a count of
/// them. `#CALC!` where nothing is left.
pub fn drop_rows_columns(
    alloc: Global,
    cell: CellReferenceIndex,
    grid: &Grid,
    rows: i64,
    columns: Option<i64>,
) -> Result<CalcResult, Memory>
    ensures { IfOk result (λ answer. answer ≡ plain_answer (DropOff rows columns) grid.now cell) }
{
    plain_answer(alloc, cell, &Reshape::DropOff { rows, columns }, grid)
}

/// EXPAND: the array with so many rows and columns, and a pad where it has no element. `#VALUE!` for fewer rows or columns than
/// it has, and what `check_array_limit` answers under a limit from 1 to 16777216 elements.
pub fn expand(
    alloc: Global,
    cell: CellReferenceIndex,
    grid: &Grid,
    rows: usize,
    columns: usize,
    pad: &ArrayNode,
    limit: usize,
) -> Result<CalcResult, Memory>
    requires { limit ≤ 16777216 }
    ensures { IfOk result (λ answer. answer ≡ reshaped_answer (Expand rows columns) (grid.now ∷ []) pad.now limit cell) }
{
    padded_answer(
        alloc,
        cell,
        &Reshape::Expand { rows, columns },
        grid,
        pad,
        limit,
    )
}

/// WRAPROWS: the elements of one row or one column, in rows of so many, and a pad in what is left of the last row. `#VALUE!`
/// for any other array and for a count of 0, and what `check_array_limit` answers under a limit from 1 to 16777216 elements.
pub fn wrap_rows(
    alloc: Global,
    cell: CellReferenceIndex,
    grid: &Grid,
    count: usize,
    pad: &ArrayNode,
    limit: usize,
) -> Result<CalcResult, Memory>
    requires { limit ≤ 16777216 }
    ensures { IfOk result (λ answer. answer ≡ reshaped_answer (WrapRows count) (grid.now ∷ []) pad.now limit cell) }
{
    padded_answer(alloc, cell, &Reshape::WrapRows { count }, grid, pad, limit)
}

/// WRAPCOLS: the elements of one row or one column, in columns of so many, and a pad in what is left of the last column.
/// `#VALUE!` for any other array and for a count of 0, and what `check_array_limit` answers under a limit from 1 to 16777216
/// elements.
pub fn wrap_columns(
    alloc: Global,
    cell: CellReferenceIndex,
    grid: &Grid,
    count: usize,
    pad: &ArrayNode,
    limit: usize,
) -> Result<CalcResult, Memory>
    requires { limit ≤ 16777216 }
    ensures { IfOk result (λ answer. answer ≡ reshaped_answer (WrapColumns count) (grid.now ∷ []) pad.now limit cell) }
{
    padded_answer(
        alloc,
        cell,
        &Reshape::WrapColumns { count },
        grid,
        pad,
        limit,
    )
}

/// CHOOSECOLS: columns by their numbers, of which there is at least one: from the front the first has number 1, from the end
/// the last has -1. `#VALUE!` for a number that names none.
pub fn choose_columns(
    alloc: Global,
    cell: CellReferenceIndex,
    grid: &Grid,
    numbers: &[i64],
) -> Result<CalcResult, Memory>
    requires { 0 < length numbers.now }
    ensures { IfOk result (λ answer. answer ≡ plain_answer (ChooseColumns numbers.now) grid.now cell) }
{
    let numbers = numbers_of(alloc, numbers)?;
    plain_answer(alloc, cell, &Reshape::ChooseColumns { numbers }, grid)
}

/// CHOOSEROWS: rows by their numbers, of which there is at least one: from the front the first has number 1, from the end the
/// last has -1. `#VALUE!` for a number that names none.
pub fn choose_rows(
    alloc: Global,
    cell: CellReferenceIndex,
    grid: &Grid,
    numbers: &[i64],
) -> Result<CalcResult, Memory>
    requires { 0 < length numbers.now }
    ensures { IfOk result (λ answer. answer ≡ plain_answer (ChooseRows numbers.now) grid.now cell) }
{
    let numbers = numbers_of(alloc, numbers)?;
    plain_answer(alloc, cell, &Reshape::ChooseRows { numbers }, grid)
}

/// TRANSPOSE: the array with its rows as columns. For want of memory it is handed back.
pub fn transpose_array(alloc: Global, grid: Grid) -> Result<Grid, Grid>
    ensures transposed { IfOk result (λ answer. answer ≡ reshaped_grid Transpose (grid ∷ []) not_available) }
    ensures handed_back { IfErr result (λ back. back ≡ grid) }
{
    match reshaped_grid(alloc, &Reshape::Transpose, slice::from_ref(&grid)) {
        Ok(answer) => Ok(answer),
        Err(_) => Err(grid),
    }
}

/// What a call of one array answers that has neither a pad nor a limit.
fn plain_answer(
    alloc: Global,
    cell: CellReferenceIndex,
    reshape: &Reshape,
    grid: &Grid,
) -> Result<CalcResult, Memory>
    requires { HasNumbers reshape.now }
    ensures { IfOk result (λ answer. answer ≡ plain_answer reshape.now grid.now cell) }
{
    let pad = ArrayNode::Error(Error::NA);
    reshaped_answer(
        alloc,
        cell,
        reshape,
        slice::from_ref(grid),
        &pad,
        GREATEST_LIMIT,
    )
}

/// What a call of one array answers that has a pad and a limit.
fn padded_answer(
    alloc: Global,
    cell: CellReferenceIndex,
    reshape: &Reshape,
    grid: &Grid,
    pad: &ArrayNode,
    limit: usize,
) -> Result<CalcResult, Memory>
    requires numbers { HasNumbers reshape.now }
    requires limit { limit ≤ 16777216 }
    ensures { IfOk result (λ answer. answer ≡ reshaped_answer reshape.now (grid.now ∷ []) pad.now limit cell) }
{
    reshaped_answer(alloc, cell, reshape, slice::from_ref(grid), pad, limit)
}

/// Some numbers as a list of their own.
fn numbers_of(alloc: Global, numbers: &[i64]) -> Result<Numbers, Memory>
    ensures { IfOk result (λ list. list ≡ numbers.now) }
{
    let mut list = Numbers::new(alloc);
    for number in numbers {
        list.push(*number)?;
    }
    Ok(list)
}
