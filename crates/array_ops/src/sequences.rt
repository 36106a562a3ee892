ghost use Rattle.std.specs.Prelude.{◌≡◌, ◌+◌, ◌*◌, ◌≤◌, IfOk, unsigned_abs};
ghost use Rattle.array_ops.specs.Sequence.{count_refused, sequence_answer, sequence_grid, sequence_refused};

use call_core::{Plain, Steps};
use grid_core::CalcResult;
use position_core::{checked, sequence_element};
use rectangle_core::{Grid, View, grid_of};
use std::alloc::Global;
use value_core::{ArrayNode, CellReferenceIndex, Error, Memory};

/// SEQUENCE: so many rows and columns, which are plain counts, of numbers that begin at a start and grow by a step, both in
/// millionths, one row after another; `#NUM!` stands where one is out of range. `#CALC!` for no row and `#VALUE!` for a negative
/// number of rows, then the same for columns, and then what `check_array_limit` answers under a limit from 1 to 16777216
/// elements.
pub fn sequence(
    alloc: Global,
    cell: CellReferenceIndex,
    rows: i64,
    columns: i64,
    start: i64,
    step: i64,
    limit: usize,
) -> Result<CalcResult, Memory>
    requires { limit ≤ 16777216 }
    ensures { IfOk result (λ answer. answer ≡ sequence_answer rows columns start step limit cell) }
{
    match sequence_refused(rows, columns, limit) {
        Some(error) => Ok(CalcResult::Error {
            error,
            origin: cell,
        }),
        None => {
            let height = rows.unsigned_abs() as usize;
            let width = columns.unsigned_abs() as usize;
            let grid = sequence_grid(alloc, height, width, start, step)?;
            Ok(CalcResult::Array(grid))
        }
    }
}

fn sequence_refused(rows: i64, columns: i64, limit: usize) -> Option<Error>
    ensures { result ≡ sequence_refused rows columns limit }
{
    if let Some(error) = count_refused(rows) {
        return Some(error);
    }
    if let Some(error) = count_refused(columns) {
        return Some(error);
    }
    checked(
        rows.unsigned_abs() as usize,
        columns.unsigned_abs() as usize,
        limit,
    )
}

/// The error of a number of rows or columns: `#CALC!` for none and `#VALUE!` below.
pub fn count_refused(count: i64) -> Option<Error>
    ensures { result ≡ count_refused count }
{
    if count < 0 {
        Some(Error::VALUE)
    } else if count == 0 {
        Some(Error::CALC)
    } else {
        None
    }
}

/// A sequence, element by element.
#[derive(Drop)]
struct Progression {
    rows: usize,
    columns: usize,
    start: i64,
    step: i64,
    ghost some_row: { 1 ≤ rows },
    ghost some_column: { 1 ≤ columns },
    ghost rows_of_a_sheet: { rows ≤ 1048576 },
    ghost columns_of_a_sheet: { columns ≤ 16384 },
}

impl<L> View<L> for Progression {
    ghost use Rattle.position_core.specs.Sequence.{sequence_element};

    ghost row_count = { λ sequence. sequence.rows };

    ghost column_count = { λ sequence. sequence.columns };

    ghost element = { λ sequence i j. sequence_element (i * sequence.columns + j) sequence.start sequence.step };

    fn rows(&self) -> usize {
        self.rows
    }

    fn columns(&self) -> usize {
        self.columns
    }

    fn at(
        &self,
        _alloc: Global,
        row: usize,
        column: usize,
        _steps: &mut Steps<L>,
    ) -> Result<ArrayNode, Memory> {
        Ok(sequence_element(row * self.columns + column, self.start, self.step))
    }
}

fn sequence_grid(
    alloc: Global,
    rows: usize,
    columns: usize,
    start: i64,
    step: i64,
) -> Result<Grid, Memory>
    requires some_row { 1 ≤ rows }
    requires some_column { 1 ≤ columns }
    requires rows_of_a_sheet { rows ≤ 1048576 }
    requires columns_of_a_sheet { columns ≤ 16384 }
    ensures { IfOk result (λ grid. grid ≡ sequence_grid rows columns start step) }
{
    let sequence = Progression {
        rows,
        columns,
        start,
        step,
    };
    let mut steps = Steps::new(Plain);
    let grid = grid_of(alloc, &sequence, &mut steps)?;
    Ok(grid)
}
