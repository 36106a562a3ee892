ghost use Rattle.std.specs.Prelude.{◌≡◌, ◌<◌, ◌+ℤ◌, pos, length, slice_get, Some};
ghost use Rattle.book_core.specs.Contents.{cell_in, line_count};
ghost use Rattle.position_core.specs.Sized.{size};
ghost use Rattle.nest_core.specs.Shown.{size_in};

use book_core::line_count;
use own_items::Items;
use position_core::{Reshape, Size};
use rectangle_core::Grid;
use value_core::{ArrayNode, CellReferenceIndex, Range};

/// A plain nest by its sources and how they are reshaped. It holds no cell's value. Each layer keeps its size and those of its
/// parts, so that none is reckoned twice.
#[derive(Debug, Drop)]
pub(crate) enum Nest {
    /// The cells of a range.
    Cells(Range),
    /// The elements of an array literal.
    Literal(Grid),
    /// Numbers in rows from a start by a step, both in millionths.
    Sequence {
        size: Size,
        start: i64,
        step: i64,
    },
    /// The elements of some nests, moved.
    Reshaped {
        reshape: Reshape,
        size: Size,
        sizes: Items<Size>,
        parts: Items<Nest>,
        pad: ArrayNode,
    },
}

impl Nest {
    /// How many rows and columns it has.
    #[tactic(auto, using(crate::proofs::Nests::nests))]
    pub(crate) fn size(&self) -> Size
        ensures { result ≡ size_in self.now }
    {
        match self {
            Nest::Cells(range) => size_of_range(*range),
            Nest::Literal(grid) => Size {
                rows: grid.rows(),
                columns: grid.columns(),
            },
            Nest::Sequence { size, .. } => *size,
            Nest::Reshaped { size, .. } => *size,
        }
    }
}

fn size_of_range(range: Range) -> Size
    ensures { result ≡ size (line_count range.left.row range.right.row) (line_count range.left.column range.right.column) }
{
    Size {
        rows: line_count(range.left.row, range.right.row),
        columns: line_count(range.left.column, range.right.column),
    }
}

/// The cell of a range at a place, by its row and column from 0.
pub(crate) fn cell_of_range(range: Range, row: usize, column: usize) -> CellReferenceIndex
    requires row { row < line_count range.left.row range.right.row }
    requires column { column < line_count range.left.column range.right.column }
    ensures { result ≡ cell_in range.left row column }
{
    CellReferenceIndex {
        sheet: range.left.sheet,
        row: line_at(range.left.row, range.right.row, row),
        column: line_at(range.left.column, range.right.column, column),
    }
}

fn line_at(first: i32, last: i32, index: usize) -> i32
    requires { index < line_count first last }
    ensures { result ≡ first +ℤ pos index }
{
    (first as i64 + index as i64) as i32
}

/// A part of a nest by its index, from 0.
pub(crate) fn part_at(parts: &[Nest], index: usize) -> &Nest
    requires { index < length parts.now }
    ensures { Some result.now ≡ slice_get parts.now index }
{
    match parts.get(index) {
        Some(part) => part,
        None => unreachable!(),
    }
}
