ghost use Rattle.std.specs.Prelude.{◌≡◌, ◌<◌, ◌≤◌, ◌+◌, ◌*◌, ◌+ℤ◌, pos, IfOk};
ghost use Rattle.book_core.specs.Contents.{cell_in, line_count, read};

use crate::book::Reads;
use call_core::Steps;
use rectangle_core::{Grid, View, grid_of};
use std::alloc::Global;
use value_core::{ArrayNode, CellReferenceIndex, Memory, Range};

/// The cells of a book from one end to the other.
#[derive(Drop)]
struct Cells<'a, B> {
    book: &'a B,
    left: CellReferenceIndex,
    right: CellReferenceIndex,
}

impl<'a, B: Reads<L>, L> View<L> for Cells<'a, B> {
    ghost row_count = { λ cells. line_count cells.left.row cells.right.row };

    ghost column_count = { λ cells. line_count cells.left.column cells.right.column };

    ghost element = { λ cells i j. (B.contents cells.book.now).value (cell_in cells.left i j) };

    fn rows(&self) -> usize {
        line_count(self.left.row, self.right.row)
    }

    fn columns(&self) -> usize {
        line_count(self.left.column, self.right.column)
    }

    fn at(
        &self,
        alloc: Global,
        row: usize,
        column: usize,
        steps: &mut Steps<L>,
    ) -> Result<ArrayNode, Memory> {
        let cell = CellReferenceIndex {
            sheet: self.left.sheet,
            row: line_at(self.left.row, self.right.row, row),
            column: line_at(self.left.column, self.right.column, column),
        };
        let element = self.book.value(cell, steps).try_clone(alloc)?;
        Ok(element)
    }
}

/// How many lines there are from the first to the last: at least one.
pub fn line_count(first: i32, last: i32) -> usize
    ensures { result ≡ line_count first last }
{
    if first < last {
        (last as i64 - first as i64 + 1) as usize
    } else {
        1
    }
}

fn line_at(first: i32, last: i32, index: usize) -> i32
    requires { index < line_count first last }
    ensures { result ≡ first +ℤ pos index }
{
    (first as i64 + index as i64) as i32
}

/// The cells of a range as a rectangle, each read once. The ends are those of the first row and column and of the last ones.
pub fn grid_of_range<B: Reads<L>, L>(
    alloc: Global,
    book: &B,
    range: Range,
    steps: &mut Steps<L>,
) -> Result<Grid, Memory>
    ensures value { IfOk result (λ grid. grid ≡ read (B.contents book.now) range.left range.right) }
    ensures counted { steps.new ≤ steps.old + line_count range.left.row range.right.row * line_count range.left.column range.right.column }
{
    let cells = Cells {
        book,
        left: range.left,
        right: range.right,
    };
    let grid = grid_of(alloc, &cells, steps)?;
    Ok(grid)
}
