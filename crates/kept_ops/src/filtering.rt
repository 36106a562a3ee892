ghost use Rattle.std.specs.Prelude.{◌≡◌, IfOk, IsTrue};
ghost use Rattle.std.specs.List.{flat_map};
ghost use Rattle.kept_ops.specs.Filter.{filter_of, first_wrong, is_mask_of, keeps, kept_or_nothing, marked, wrong_of};

use crate::part::{columns_at, rows_at};
use rectangle_core::Grid;
use std::alloc::Global;
use value_core::{ArrayNode, Error, Memory};

/// What FILTER comes to.
#[derive(Debug, Drop)]
pub enum Filtered {
    /// What is kept, whole rows or whole columns in their order.
    Kept(Grid),
    /// The mask keeps nothing.
    Nothing,
    /// The first text of the mask counts as `#VALUE!` and its first error as itself, whichever comes first by rows; so does a mask
    /// that fits neither the rows nor the columns.
    Wrong(Error),
}

/// FILTER: the rows, or the columns, at whose places a mask has TRUE or a number other than 0. The mask is a column or a row with
/// an element for each row; else it is a row or a column with an element for each column.
pub fn filter(alloc: Global, grid: &Grid, include: &Grid) -> Result<Filtered, Memory>
    ensures { IfOk result (λ answer. answer ≡ filter_of grid.now include.now) }
{
    if let Some(error) = first_wrong(include.elements()) {
        return Ok(Filtered::Wrong(error));
    }
    if is_mask_of(include, grid.rows()) {
        return kept_or_nothing(alloc, grid, include, false);
    }
    if is_mask_of(include, grid.columns()) {
        return kept_or_nothing(alloc, grid, include, true);
    }
    Ok(Filtered::Wrong(Error::VALUE))
}

fn first_wrong(elements: &[ArrayNode]) -> Option<Error>
    ensures { result ≡ first_wrong elements.now }
{
    for element in elements {
        if let Some(error) = wrong_of(element) {
            return Some(error);
        }
    }
    None
}

fn wrong_of(element: &ArrayNode) -> Option<Error>
    ensures { result ≡ wrong_of element.now }
{
    match element {
        ArrayNode::String(_) => Some(Error::VALUE),
        ArrayNode::Error(error) => Some(*error),
        ArrayNode::Number(_) | ArrayNode::Boolean(_) | ArrayNode::Empty => None,
    }
}

/// Whether a mask is a column or a row of so many elements.
fn is_mask_of(include: &Grid, count: usize) -> bool
    ensures { result ≡ is_mask_of include.now count }
{
    let is_column = include.rows() == count && include.columns() == 1;
    let is_row = include.rows() == 1 && include.columns() == count;
    is_column || is_row
}

fn kept_or_nothing(
    alloc: Global,
    grid: &Grid,
    include: &Grid,
    by_column: bool,
) -> Result<Filtered, Memory>
    ensures { IfOk result (λ answer. answer ≡ kept_or_nothing by_column grid.now (marked (flat_map (λ row. row) include.now))) }
{
    let kept = marked(alloc, include.elements())?;
    let kept = kept.as_slice();
    if kept.is_empty() {
        return Ok(Filtered::Nothing);
    }
    let made = if by_column {
        columns_at(alloc, grid, kept)?
    } else {
        rows_at(alloc, grid, kept)?
    };
    Ok(Filtered::Kept(made))
}

/// The places of a mask that keep, in order.
fn marked(alloc: Global, mask: &[ArrayNode]) -> Result<Vec<usize>, Memory>
    ensures { IfOk result (λ kept. kept.items ≡ marked mask.now) }
{
    let mut kept = Vec::new(alloc);
    for (index, element) in mask.iter().enumerate() {
        if keeps(element) {
            kept.push(index)?;
        }
    }
    Ok(kept)
}

fn keeps(element: &ArrayNode) -> bool
    ensures { result ≡ keeps element.now }
{
    match element {
        ArrayNode::Number(number) => *number != 0,
        ArrayNode::Boolean(value) => *value,
        ArrayNode::String(_) | ArrayNode::Error(_) | ArrayNode::Empty => false,
    }
}
