ghost use Rattle.std.specs.Prelude.{◌≡◌, ◌+◌, ◌<◌, ◌≤◌, IfOk, IsTrue};
ghost use Rattle.std.specs.Option.{option_copied};
ghost use Rattle.rectangle_core.specs.Rectangle.{element_at, or_blank};
ghost use Rattle.nest_core.specs.Shown.{is_sound, shown, size_in};

use crate::nest::{Nest, cell_of_range, part_at};
use book_core::Reads;
use call_core::Steps;
use position_core::{Position, position_in, sequence_element};
use std::alloc::Global;
use value_core::{ArrayNode, Error, Memory};

/// The element of a nest at a place, by its row and column from 0. At most one cell is read.
#[tactic(auto, using(crate::proofs::Elements::elements))]
pub(crate) fn element_of<B: Reads<L>, L>(
    alloc: Global,
    nest: &Nest,
    book: &B,
    row: usize,
    column: usize,
    steps: &mut Steps<L>,
) -> Result<ArrayNode, Memory>
    requires sound { IsTrue (is_sound nest.now) }
    requires row { row < (size_in nest.now).rows }
    requires column { column < (size_in nest.now).columns }
    ensures value { IfOk result (λ element. element ≡ or_blank (element_at (shown (B.contents book.now) nest.now) row column)) }
    ensures counted { steps.new ≤ steps.old + 1 }
{
    match nest {
        Nest::Cells(range) => {
            let cell = cell_of_range(*range, row, column);
            let element = book.value(cell, steps).try_clone(alloc)?;
            Ok(element)
        }
        Nest::Literal(grid) => clone_or_blank(alloc, grid.get(row, column)),
        Nest::Sequence { size, start, step } => {
            Ok(sequence_element(row * size.columns + column, *start, *step))
        }
        Nest::Reshaped {
            reshape,
            sizes,
            parts,
            pad,
            ..
        } => match position_in(reshape, sizes.as_slice(), row, column) {
            Position::Part { index, row, column } => {
                let part = part_at(parts.as_slice(), index);
                let element = element_of(alloc, part, book, row, column, steps)?;
                Ok(element)
            }
            Position::Pad => {
                let element = pad.try_clone(alloc)?;
                Ok(element)
            }
            Position::NotAvailable => Ok(ArrayNode::Error(Error::NA)),
        },
    }
}

fn clone_or_blank(alloc: Global, element: Option<&ArrayNode>) -> Result<ArrayNode, Memory>
    ensures { IfOk result (λ made. made ≡ or_blank (option_copied element.entry)) }
{
    match element {
        Some(element) => element.try_clone(alloc),
        None => Ok(ArrayNode::Empty),
    }
}
