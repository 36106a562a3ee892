ghost use Rattle.std.specs.Prelude.{◌≡◌, ◌<◌, ◌≤◌, ◌+◌, ◌-◌, ◌+ℤ◌, pos, IfOk};
ghost use Rattle.rectangle_core.specs.Rectangle.{height, width};
ghost use Rattle.book_core.specs.Contents.{cell_in, line_count};
ghost use Rattle.reference_core.specs.Extent.{columns_of, rows_of};
ghost use Rattle.reference_core.specs.Selection.{IsWithin};
ghost use Rattle.result_core.specs.Finding.{result_of};
ghost use Rattle.argument_core.specs.Argument.{given_if};
ghost use Rattle.argument_core.specs.Check.{Gives};
ghost use Rattle.reference_functions.specs.Indexing.{area_in, element_from, elements_from, index_call, index_in, index_in_array, index_in_range, is_one, line_in, line_of, part_of_array, part_of_range, selection_of, unless_other_area};

use argument_core::{Stop, floor_in, number_in, two_to_four};
use book_core::Reads;
use call_core::{Plain, Steps};
use grid_core::CalcResult;
use rectangle_core::{Grid, View, grid_of};
use reference_core::{Selection, columns_of, index_of, rows_of};
use result_core::{Found, result_of};
use std::alloc::Global;
use value_core::{ArrayNode, CellReferenceIndex, Error, Memory, Range};

fn unless_other_area(area: i64) -> Result<i64, Stop>
    ensures { Gives result (unless_other_area area) }
{
    if area < 1 {
        Err(Stop::Wrong(Error::VALUE))
    } else if 1 < area {
        Err(Stop::Wrong(Error::REF))
    } else {
        Ok(area)
    }
}

fn area_in<B: Reads<L>, L>(
    book: &B,
    cell: CellReferenceIndex,
    found: Found,
    steps: &mut Steps<L>,
) -> Result<i64, Stop>
    ensures { Gives result (area_in (B.contents book.now) cell found) }
{
    let area = floor_in(book, cell, found, steps)?;
    unless_other_area(area)
}

fn area_if<B: Reads<L>, L>(
    book: &B,
    cell: CellReferenceIndex,
    found: Option<Found>,
    steps: &mut Steps<L>,
) -> Result<Option<i64>, Stop>
    ensures { Gives result (given_if (area_in (B.contents book.now) cell) found) }
{
    match found {
        Some(found) => {
            let area = area_in(book, cell, found, steps)?;
            Ok(Some(area))
        }
        None => Ok(None),
    }
}

fn line_of(number: i64) -> Result<usize, Stop>
    ensures { Gives result (line_of number) }
{
    match usize::try_from(number) {
        Ok(number) => Ok(number / 1000000),
        Err(_) => Err(Stop::Wrong(Error::VALUE)),
    }
}

fn line_in<B: Reads<L>, L>(
    book: &B,
    cell: CellReferenceIndex,
    found: Found,
    steps: &mut Steps<L>,
) -> Result<usize, Stop>
    ensures { Gives result (line_in (B.contents book.now) cell found) }
{
    let number = number_in(book, cell, found, steps)?;
    line_of(number)
}

fn line_if<B: Reads<L>, L>(
    book: &B,
    cell: CellReferenceIndex,
    found: Option<Found>,
    steps: &mut Steps<L>,
) -> Result<Option<usize>, Stop>
    ensures { Gives result (given_if (line_in (B.contents book.now) cell) found) }
{
    match found {
        Some(found) => {
            let line = line_in(book, cell, found, steps)?;
            Ok(Some(line))
        }
        None => Ok(None),
    }
}

fn selection_of(
    rows: usize,
    columns: usize,
    row: usize,
    column: Option<usize>,
) -> Result<Selection, Stop>
    requires some_row { 1 ≤ rows }
    requires some_column { 1 ≤ columns }
    ensures named { Gives result (selection_of rows columns row column) }
    ensures within { IfOk result (IsWithin rows columns) }
{
    match index_of(rows, columns, row, column.unwrap_or(0), column.is_none()) {
        Some(selection) => Ok(selection),
        None => Err(Stop::Wrong(Error::REF)),
    }
}

fn is_one(selection: Selection) -> bool
    ensures { result ≡ is_one selection }
{
    selection.row1 == selection.row2 && selection.column1 == selection.column2
}

fn line_at(first: i32, last: i32, index: usize) -> i32
    requires { index < line_count first last }
    ensures { result ≡ first +ℤ pos index }
{
    (first as i64 + index as i64) as i32
}

fn cell_in(range: Range, row: usize, column: usize) -> CellReferenceIndex
    requires row { row < rows_of range }
    requires column { column < columns_of range }
    ensures { result ≡ cell_in range.left row column }
{
    CellReferenceIndex {
        sheet: range.left.sheet,
        row: line_at(range.left.row, range.right.row, row),
        column: line_at(range.left.column, range.right.column, column),
    }
}

/// The cells of a range where the selected rows and columns meet. Of one cell the value is read, and of more none.
fn part_of_range<B: Reads<L>, L>(
    alloc: Global,
    book: &B,
    cell: CellReferenceIndex,
    range: Range,
    selection: Selection,
    steps: &mut Steps<L>,
) -> Result<CalcResult, Memory>
    requires { IsWithin (rows_of range) (columns_of range) selection }
    ensures value { IfOk result (λ made. made ≡ part_of_range (B.contents book.now) cell range.left selection) }
    ensures counted { steps.new ≤ steps.old + 1 }
{
    let first = cell_in(range, selection.row1 - 1, selection.column1 - 1);
    let last = cell_in(range, selection.row2 - 1, selection.column2 - 1);
    if is_one(selection) {
        result_of(alloc, cell, book.value(first, steps))
    } else {
        Ok(CalcResult::Range {
            left: first,
            right: last,
        })
    }
}

/// A line from the first to the last, whose numbers count from 1, as an index from 0.
fn line_from(first: usize, last: usize, index: usize) -> usize
    requires some { 1 ≤ first }
    requires within { index < last - (first - 1) }
    ensures { result ≡ first - 1 + index }
{
    first - 1 + index
}

/// The elements of an array where the selected rows and columns meet.
#[derive(Drop)]
struct Part<'a> {
    grid: &'a Grid,
    selection: Selection,
    ghost first_row: { 1 ≤ selection.row1 },
    ghost row_order: { selection.row1 ≤ selection.row2 },
    ghost first_column: { 1 ≤ selection.column1 },
    ghost column_order: { selection.column1 ≤ selection.column2 },
}

impl<'a, L> View<L> for Part<'a> {
    ghost row_count = { λ part. part.selection.row2 - (part.selection.row1 - 1) };

    ghost column_count = { λ part. part.selection.column2 - (part.selection.column1 - 1) };

    ghost element = { λ part i j. element_from part.grid.now part.selection i j };

    fn rows(&self) -> usize {
        self.selection.row2 - (self.selection.row1 - 1)
    }

    fn columns(&self) -> usize {
        self.selection.column2 - (self.selection.column1 - 1)
    }

    fn at(
        &self,
        alloc: Global,
        row: usize,
        column: usize,
        _steps: &mut Steps<L>,
    ) -> Result<ArrayNode, Memory> {
        let row = line_from(self.selection.row1, self.selection.row2, row);
        let column = line_from(self.selection.column1, self.selection.column2, column);
        match self.grid.get(row, column) {
            Some(element) => element.try_clone(alloc),
            None => Ok(ArrayNode::Empty),
        }
    }
}

fn elements_from(alloc: Global, grid: &Grid, selection: Selection) -> Result<Grid, Memory>
    requires { IsWithin (height grid.now) (width grid.now) selection }
    ensures { IfOk result (λ made. made ≡ elements_from grid.now selection) }
{
    let part = Part { grid, selection };
    let mut steps = Steps::new(Plain);
    let made = grid_of(alloc, &part, &mut steps)?;
    Ok(made)
}

fn first_result(
    alloc: Global,
    cell: CellReferenceIndex,
    grid: &Grid,
    selection: Selection,
) -> Result<CalcResult, Memory>
    requires { IsWithin (height grid.now) (width grid.now) selection }
    ensures { IfOk result (λ made. made ≡ result_of cell (element_from grid.now selection 0 0)) }
{
    match grid.get(selection.row1 - 1, selection.column1 - 1) {
        Some(element) => result_of(alloc, cell, element),
        None => Ok(CalcResult::EmptyCell),
    }
}

fn part_of_array(
    alloc: Global,
    cell: CellReferenceIndex,
    grid: &Grid,
    selection: Selection,
) -> Result<CalcResult, Memory>
    requires { IsWithin (height grid.now) (width grid.now) selection }
    ensures { IfOk result (λ made. made ≡ part_of_array cell grid.now selection) }
{
    if is_one(selection) {
        first_result(alloc, cell, grid, selection)
    } else {
        let made = elements_from(alloc, grid, selection)?;
        Ok(CalcResult::Array(made))
    }
}

fn index_in_range<B: Reads<L>, L>(
    alloc: Global,
    book: &B,
    cell: CellReferenceIndex,
    row: usize,
    column: Option<usize>,
    range: Range,
    steps: &mut Steps<L>,
) -> Result<CalcResult, Stop>
    ensures value { Gives result (index_in_range (B.contents book.now) cell row column range) }
    ensures counted { steps.new ≤ steps.old + 1 }
{
    let selection = selection_of(rows_of(range), columns_of(range), row, column)?;
    let made = part_of_range(alloc, book, cell, range, selection, steps)?;
    Ok(made)
}

fn index_in_array(
    alloc: Global,
    cell: CellReferenceIndex,
    row: usize,
    column: Option<usize>,
    grid: &Grid,
) -> Result<CalcResult, Stop>
    ensures { Gives result (index_in_array cell row column grid.now) }
{
    let selection = selection_of(grid.rows(), grid.columns(), row, column)?;
    let made = part_of_array(alloc, cell, grid, selection)?;
    Ok(made)
}

fn index_in<B: Reads<L>, L>(
    alloc: Global,
    book: &B,
    cell: CellReferenceIndex,
    row: usize,
    column: Option<usize>,
    source: CalcResult,
    steps: &mut Steps<L>,
) -> Result<CalcResult, Stop>
    ensures value { Gives result (index_in (B.contents book.now) cell row column source) }
    ensures counted { steps.new ≤ steps.old + 1 }
{
    match source {
        CalcResult::Range { left, right } => index_in_range(
            alloc,
            book,
            cell,
            row,
            column,
            Range { left, right },
            steps,
        ),
        CalcResult::Array(grid) => index_in_array(alloc, cell, row, column, &grid),
        CalcResult::Error { error, .. } => Err(Stop::Wrong(error)),
        other => {
            drop(other);
            Err(Stop::Wrong(Error::VALUE))
        }
    }
}

/// INDEX of two to four arguments: a range or an array, a number of a row, one of a column, and the number of an area.
///
/// The last one is looked at first: below 1 it is `#VALUE!`, above `#REF!`. Numbers go down to the next whole one; 0 names all rows
/// or columns, one below 0 is `#VALUE!`, one past the last is `#REF!`. With two arguments the number names a column of a source of
/// one row, and a row of any other. One value as source is `#VALUE!`. Where one cell is named the answer is its value, which alone
/// is read; else it is a range of a range, and an array of an array.
pub fn index_call<B: Reads<L>, L>(
    alloc: Global,
    book: &B,
    cell: CellReferenceIndex,
    args: Vec<Found>,
    steps: &mut Steps<L>,
) -> Result<CalcResult, Stop>
    ensures { Gives result (index_call (B.contents book.now) cell args.items) }
{
    let asked = two_to_four(args)?;
    let _area = area_if(book, cell, asked.fourth, steps)?;
    let row = line_in(book, cell, asked.second, steps)?;
    let column = line_if(book, cell, asked.third, steps)?;
    let source = asked.first.into_context(alloc, book, cell, steps)?;
    index_in(alloc, book, cell, row, column, source, steps)
}
