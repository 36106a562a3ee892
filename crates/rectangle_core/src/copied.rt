ghost use Rattle.std.specs.Prelude.{◌≡◌, ◌≤◌, IfOk};
ghost use Rattle.std.specs.Option.{option_copied};
ghost use Rattle.rectangle_core.specs.Rectangle.{element_at, height, IsRectangle, or_blank, width};

use crate::grid::Grid;
use crate::view::{View, grid_of};
use call_core::{Plain, Steps};
use std::alloc::Global;
use value_core::{ArrayNode, Memory, Rows};

/// A rectangle, element by element.
#[derive(Drop)]
struct GridCopy<'a> {
    grid: &'a Grid,
}

impl<'a, L> View<L> for GridCopy<'a> {
    ghost row_count = { λ copy. height copy.grid.now };

    ghost column_count = { λ copy. width copy.grid.now };

    ghost element = { λ copy i j. or_blank (element_at copy.grid.now i j) };

    fn rows(&self) -> usize {
        self.grid.rows()
    }

    fn columns(&self) -> usize {
        self.grid.columns()
    }

    fn at(
        &self,
        alloc: Global,
        row: usize,
        column: usize,
        _steps: &mut Steps<L>,
    ) -> Result<ArrayNode, Memory> {
        clone_or_blank(alloc, self.grid.get(row, column))
    }
}

/// Rows with an element in the first one, element by element.
#[derive(Drop)]
struct RowsCopy<'a> {
    rows: &'a Rows,
    ghost some_row: { 1 ≤ height rows.now },
    ghost some_column: { 1 ≤ width rows.now },
}

impl<'a, L> View<L> for RowsCopy<'a> {
    ghost row_count = { λ copy. height copy.rows.now };

    ghost column_count = { λ copy. width copy.rows.now };

    ghost element = { λ copy i j. or_blank (element_at copy.rows.now i j) };

    fn rows(&self) -> usize {
        self.rows.len()
    }

    fn columns(&self) -> usize {
        match self.rows.get(0) {
            Some(first) => first.len(),
            None => unreachable!(),
        }
    }

    fn at(
        &self,
        alloc: Global,
        row: usize,
        column: usize,
        _steps: &mut Steps<L>,
    ) -> Result<ArrayNode, Memory> {
        clone_or_blank(alloc, element_of(self.rows, row, column))
    }
}

fn element_of(rows: &Rows, row: usize, column: usize) -> Option<&ArrayNode>
    ensures { option_copied result ≡ element_at rows.now row column }
{
    match rows.get(row) {
        Some(elements) => elements.get(column),
        None => None,
    }
}

fn clone_or_blank(alloc: Global, element: Option<&ArrayNode>) -> Result<ArrayNode, Memory>
    ensures { IfOk result (λ made. made ≡ or_blank (option_copied element.entry)) }
{
    match element {
        Some(element) => element.try_clone(alloc),
        None => Ok(ArrayNode::Empty),
    }
}

/// An equal rectangle.
pub(crate) fn copy_of_grid(alloc: Global, grid: &Grid) -> Result<Grid, Memory>
    ensures { IfOk result (λ copy. copy ≡ grid.now) }
{
    let _rectangle = grid.rows();
    let mut steps = Steps::new(Plain);
    let copy = grid_of(alloc, &GridCopy { grid }, &mut steps)?;
    Ok(copy)
}

/// Some rows that are a rectangle, as one.
pub(crate) fn copy_of_rows(alloc: Global, rows: &Rows) -> Result<Grid, Memory>
    requires { IsRectangle rows.now }
    ensures { IfOk result (λ copy. copy ≡ rows.now) }
{
    let mut steps = Steps::new(Plain);
    let copy = grid_of(alloc, &RowsCopy { rows }, &mut steps)?;
    Ok(copy)
}
