ghost use Rattle.std.specs.Prelude.{◌≡◌, ◌≤◌, ◌<◌, ◌*◌, ◌↔◌, IfOk, IsTrue, length, option_map, slice_get};
ghost use Rattle.std.specs.List.{flat_map};
ghost use Rattle.std.specs.Option.{option_copied};
ghost use Rattle.rectangle_core.specs.Rectangle.{cut, element_at, height, IsMadeOf, IsRectangle, one_by_one, width};

use crate::copied::{copy_of_grid, copy_of_rows};
use std::alloc::Global;
use std::marker::Model;
use value_core::{ArrayNode, Memory, Rows};

/// A rectangle of at least one row and one column. A contract sees the list of its rows.
#[derive(Debug, Drop)]
pub struct Grid {
    pub(crate) rows: usize,
    pub(crate) columns: usize,
    /// The elements, one row after another.
    pub(crate) cells: Vec<ArrayNode>,
}

impl Model for Grid {
    ghost use Rattle.std.specs.Prelude.{◌≡◌, ◌≤◌, ◌*◌, List, length};
    ghost use Rattle.value_core.specs.declared.array.ArrayNode.{ArrayNode};
    ghost use Rattle.rectangle_core.specs.Rectangle.{cut};

    ghost Value = { List (List ArrayNode) };

    ghost view = { λ grid. cut grid.rows grid.columns grid.cells.items };

    ghost invariant = { λ grid. (1 ≤ grid.rows) × (1 ≤ grid.columns) × (grid.rows * grid.columns ≡ length grid.cells.items) };
}

impl Grid {
    /// The rectangle that some rows are; `None` exactly for no row, an empty first row or rows of unequal length.
    pub fn from_rows(alloc: Global, rows: Rows) -> Result<Option<Grid>, Memory>
        ensures { IfOk result (λ made. IsMadeOf rows made) }
    {
        Grid::copied_from_rows(alloc, &rows)
    }

    /// The rectangle that some rows are, which stay; `None` exactly for no row, an empty first row or rows of unequal length.
    pub fn copied_from_rows(alloc: Global, rows: &Rows) -> Result<Option<Grid>, Memory>
        ensures { IfOk result (λ made. IsMadeOf rows.now made) }
    {
        if is_rectangle(rows) {
            let grid = copy_of_rows(alloc, rows)?;
            Ok(Some(grid))
        } else {
            Ok(None)
        }
    }

    /// One element as a rectangle.
    pub fn of_one(alloc: Global, element: ArrayNode) -> Result<Grid, Memory>
        ensures { IfOk result (λ grid. grid ≡ one_by_one element) }
    {
        let mut cells = Vec::with_capacity(alloc, 1)?;
        cells.push(element)?;
        Ok(Grid::from_cells(1, 1, cells))
    }

    /// The rectangle of these elements, one row after another.
    pub(crate) fn from_cells(rows: usize, columns: usize, cells: Vec<ArrayNode>) -> Grid
        requires some_row { 1 ≤ rows }
        requires some_column { 1 ≤ columns }
        requires full { rows * columns ≡ length cells.items }
        ensures { result ≡ cut rows columns cells.items }
    {
        Grid {
            rows,
            columns,
            cells,
        }
    }

    /// How many rows there are.
    #[tactic(auto, using(crate::proofs::Cuts::cuts))]
    pub fn rows(&self) -> usize
        ensures count { result ≡ height self.now }
        ensures some { 1 ≤ result }
        ensures rectangle { IsRectangle self.now }
    {
        self.rows
    }

    /// How many columns there are.
    #[tactic(auto, using(crate::proofs::Cuts::cuts))]
    pub fn columns(&self) -> usize
        ensures count { result ≡ width self.now }
        ensures some { 1 ≤ result }
    {
        self.columns
    }

    /// The element at a place, by its row and column from 0; `None` exactly outside.
    #[tactic(auto, using(crate::proofs::Cuts::cuts))]
    pub fn get(&self, row: usize, column: usize) -> Option<&ArrayNode>
        ensures { option_copied result ≡ element_at self.now row column }
    {
        if row >= self.rows {
            return None;
        }
        if column >= self.columns {
            return None;
        }
        nth(self.cells.as_slice(), row * self.columns + column)
    }

    /// The elements, one row after another.
    pub fn elements(&self) -> &[ArrayNode]
        ensures { result.now ≡ flat_map (λ row. row) self.now }
    {
        self.cells.as_slice()
    }

    /// The elements of a row by its number, from 0; `None` exactly past the last row.
    #[tactic(auto, using(crate::proofs::Cuts::cuts))]
    pub fn row(&self, row: usize) -> Option<&[ArrayNode]>
        ensures { option_map (λ elements. elements.now) result ≡ slice_get self.now row }
    {
        if row >= self.rows {
            return None;
        }
        let start = row * self.columns;
        Some(&self.cells.as_slice()[start..start + self.columns])
    }

    /// An equal rectangle.
    pub fn try_clone(&self, alloc: Global) -> Result<Grid, Memory>
        ensures { IfOk result (λ copy. copy ≡ self.now) }
    {
        copy_of_grid(alloc, self)
    }
}

fn nth(cells: &[ArrayNode], index: usize) -> Option<&ArrayNode>
    ensures { option_copied result ≡ slice_get cells.now index }
{
    cells.get(index)
}

/// Whether some rows are a rectangle.
fn is_rectangle(rows: &Rows) -> bool
    ensures { IsTrue result ↔ IsRectangle rows.now }
{
    let columns = match rows.get(0) {
        Some(first) => first.len(),
        None => return false,
    };
    if columns == 0 {
        return false;
    }
    for index in 0..rows.len() {
        match rows.get(index) {
            Some(row) => {
                if row.len() != columns {
                    return false;
                }
            }
            None => unreachable!(),
        }
    }
    true
}
