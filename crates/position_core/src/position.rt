ghost use Rattle.std.specs.Prelude.{◌≡◌, ◌<◌, length, IsTrue, slice_index_or, pos, [], ◌∷◌};
ghost use Rattle.position_core.specs.Axis.{chosen};
ghost use Rattle.position_core.specs.Check.{are_choices, is_line};
ghost use Rattle.position_core.specs.Position.{IsWithin, position, wrapped};
ghost use Rattle.position_core.specs.Place.{IsPlace};

use crate::axis::{chosen, dropped_from, dropped_from_if, taken_from, taken_from_if};
use crate::checks::is_line;
use crate::reshape::{Reshape, Size};
use crate::stacks::{below, beside};

/// Where an element comes from: a place in the array of this index, the pad, or `#N/A`. Indices, rows and columns count
/// from 0.
#[derive(Clone, Copy, Debug, PartialEq, Eq)]
pub enum Position {
    Part {
        index: usize,
        row: usize,
        column: usize,
    },
    Pad,
    NotAvailable,
}

/// Where the element at a place of the answer comes from, by its row and column from 0. A part lies in its array.
pub fn position_in(reshape: &Reshape, sizes: &[Size], row: usize, column: usize) -> Position
    requires { IsPlace reshape.now sizes.now row column }
    ensures value { result ≡ position reshape.now sizes.now row column }
    ensures within { IsWithin result sizes.now }
{
    let size = sizes[0];
    match reshape {
        Reshape::Take { rows, columns } => only(
            row + taken_from(*rows, size.rows),
            column + taken_from_if(*columns, size.columns),
        ),
        Reshape::DropOff { rows, columns } => only(
            row + dropped_from(*rows, size.rows),
            column + dropped_from_if(*columns, size.columns),
        ),
        Reshape::Expand { .. } => {
            if row < size.rows && column < size.columns {
                only(row, column)
            } else {
                Position::Pad
            }
        }
        Reshape::Transpose => only(column, row),
        Reshape::WrapRows { count } => wrapped(size, row * *count + column),
        Reshape::WrapColumns { count } => wrapped(size, column * *count + row),
        Reshape::ChooseColumns { numbers } => {
            only(row, choice(numbers.as_slice(), column, size.columns))
        }
        Reshape::ChooseRows { numbers } => {
            only(choice(numbers.as_slice(), row, size.rows), column)
        }
        Reshape::Hstack => beside(sizes, row, column),
        Reshape::Vstack => below(sizes, row, column),
    }
}

/// A place in the only array.
fn only(row: usize, column: usize) -> Position
    ensures { result ≡ Position.Part 0 row column }
{
    Position::Part {
        index: 0,
        row,
        column,
    }
}

/// Which of so many lines the number with this index names.
fn choice(numbers: &[i64], index: usize, total: usize) -> usize
    requires choices { IsTrue (are_choices numbers.now total) }
    requires within { index < length numbers.now }
    ensures value { result ≡ chosen (slice_index_or numbers.now index (pos 0)) total }
    ensures within { result < total }
{
    chosen(numbers[index], total)
}

/// The place of an element of one row or one column, by its index.
fn wrapped(size: Size, index: usize) -> Position
    requires { IsTrue (is_line size) }
    ensures value { result ≡ wrapped size index }
    ensures within { IsWithin result (size ∷ []) }
{
    if size.rows == 1 {
        if index < size.columns {
            only(0, index)
        } else {
            Position::Pad
        }
    } else {
        if index < size.rows {
            only(index, 0)
        } else {
            Position::Pad
        }
    }
}
