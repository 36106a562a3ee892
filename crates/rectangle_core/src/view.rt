ghost use Rattle.std.specs.Prelude.{◌≡◌, ℕ, ◌≤◌, ◌<◌, ◌+◌, ◌*◌, ◌++◌, [], IfOk, vec_capacity};
ghost use Rattle.value_core.specs.declared.array.ArrayNode.{ArrayNode};
ghost use Rattle.rectangle_core.specs.Rectangle.{rectangle, tabulate};

use crate::grid::Grid;
use call_core::Steps;
use std::alloc::Global;
use value_core::{ArrayNode, Memory};

/// Something that has at least one row and one column, and an element at each place, which is found in at most one step.
pub trait View<L> {
    ghost row_count: { Self → ℕ };

    ghost column_count: { Self → ℕ };

    ghost element: { Self → ℕ → ℕ → ArrayNode };

    /// How many rows it has.
    fn rows(&self) -> usize
        ensures count { result ≡ row_count self.now }
        ensures some { 1 ≤ result };

    /// How many columns it has.
    fn columns(&self) -> usize
        ensures count { result ≡ column_count self.now }
        ensures some { 1 ≤ result };

    /// The element at a place, by its row and column from 0.
    fn at(
        &self,
        alloc: Global,
        row: usize,
        column: usize,
        steps: &mut Steps<L>,
    ) -> Result<ArrayNode, Memory>
        requires row { row < row_count self.now }
        requires column { column < column_count self.now }
        ensures value { IfOk result (λ found. found ≡ element self.now row column) }
        ensures counted { steps.new ≤ steps.old + 1 };
}

/// The rectangle that a view shows, in at most as many steps as it has elements.
///
/// Its room is reserved in full before the first element is found: what is too large for the memory takes no step.
#[tactic(auto, using(crate::proofs::Fills::fills))]
pub fn grid_of<V: View<L>, L>(alloc: Global, view: &V, steps: &mut Steps<L>) -> Result<Grid, Memory>
    ensures value { IfOk result (λ grid. grid ≡ rectangle (V.row_count view.now) (V.column_count view.now) (V.element view.now)) }
    ensures counted { steps.new ≤ steps.old + V.row_count view.now * V.column_count view.now }
{
    let rows = view.rows();
    let columns = view.columns();
    let mut cells = room_for(alloc, rows, columns)?;
    for row in 0..rows {
        push_row(alloc, &mut cells, view, row, steps)?;
    }
    Ok(Grid::from_cells(rows, columns, cells))
}

/// No elements, and room for as many as a rectangle of a size has.
fn room_for(alloc: Global, rows: usize, columns: usize) -> Result<Vec<ArrayNode>, Memory>
    ensures none { IfOk result (λ cells. cells.items ≡ []) }
    ensures room { IfOk result (λ cells. vec_capacity cells ≡ rows * columns) }
{
    match rows.checked_mul(columns) {
        Some(count) => {
            let cells = Vec::with_capacity(alloc, count)?;
            Ok(cells)
        }
        None => Err(Memory),
    }
}

/// Puts the elements of a row of a view behind the others.
#[tactic(auto, using(crate::proofs::Fills::fills))]
fn push_row<V: View<L>, L>(
    alloc: Global,
    cells: &mut Vec<ArrayNode>,
    view: &V,
    row: usize,
    steps: &mut Steps<L>,
) -> Result<(), Memory>
    requires { row < V.row_count view.now }
    ensures value { IfOk result (λ _. cells.new.items ≡ cells.old.items ++ tabulate (V.column_count view.now) (V.element view.now row)) }
    ensures counted { steps.new ≤ steps.old + V.column_count view.now }
{
    let columns = view.columns();
    for column in 0..columns {
        let element = view.at(alloc, row, column, steps)?;
        cells.push(element)?;
    }
    Ok(())
}
