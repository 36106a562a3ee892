ghost use Rattle.std.specs.Prelude.{◌≡◌, ◌+◌, ◌*◌, ◌≤◌, IfOk, IsTrue};
ghost use Rattle.book_core.specs.Contents.{Contents};
ghost use Rattle.rectangle_core.specs.Rectangle.{element_at, height, or_blank, width};
ghost use Rattle.array_ops.specs.Reshaped.{size_of};
ghost use Rattle.nest_core.specs.Rows.{rows_in};
ghost use Rattle.nest_core.specs.Shown.{is_sound, shown, size_in};

use crate::element::element_of;
use crate::nest::Nest;
use crate::plain_nest::PlainNest;
use book_core::Reads;
use call_core::Steps;
use position_core::Size;
use rectangle_core::{Grid, View, grid_of};
use std::alloc::Global;
use value_core::{ArrayNode, Memory};

impl PlainNest {
    /// How many rows and columns it has, over any book. No cell is read.
    pub fn size(&self) -> Size
        ensures { (book : Contents) → result ≡ size_of (rows_in book self.now) }
    {
        self.held.size()
    }

    /// The element at a place, by its row and column from 0; `None` exactly outside. At most one cell is read, and none outside.
    pub fn get<B: Reads<L>, L>(
        &self,
        alloc: Global,
        book: &B,
        row: usize,
        column: usize,
        steps: &mut Steps<L>,
    ) -> Result<Option<ArrayNode>, Memory>
        ensures value { IfOk result (λ found. found ≡ element_at (rows_in (B.contents book.now) self.now) row column) }
        ensures counted { steps.new ≤ steps.old + 1 }
    {
        let size = self.held.size();
        if row >= size.rows {
            return Ok(None);
        }
        if column >= size.columns {
            return Ok(None);
        }
        let element = element_of(alloc, &self.held, book, row, column, steps)?;
        Ok(Some(element))
    }

    /// The whole array. At most as many cells are read as it has elements.
    pub fn grid<B: Reads<L>, L>(
        &self,
        alloc: Global,
        book: &B,
        steps: &mut Steps<L>,
    ) -> Result<Grid, Memory>
        ensures value { IfOk result (λ grid. grid ≡ rows_in (B.contents book.now) self.now) }
        ensures counted { steps.new ≤ steps.old + height (rows_in (B.contents book.now) self.now) * width (rows_in (B.contents book.now) self.now) }
    {
        let elements = Elements {
            nest: &self.held,
            book,
        };
        let grid = grid_of(alloc, &elements, steps)?;
        Ok(grid)
    }
}

/// The elements of a nest over a book.
#[derive(Drop)]
struct Elements<'a, B> {
    nest: &'a Nest,
    book: &'a B,
    ghost sound: { IsTrue (is_sound nest.now) },
}

impl<'a, B: Reads<L>, L> View<L> for Elements<'a, B> {
    ghost row_count = { λ elements. (size_in elements.nest.now).rows };

    ghost column_count = { λ elements. (size_in elements.nest.now).columns };

    ghost element = { λ elements i j. or_blank (element_at (shown (B.contents elements.book.now) elements.nest.now) i j) };

    #[tactic(auto, using(crate::proofs::Wholes::wholes))]
    fn rows(&self) -> usize {
        self.nest.size().rows
    }

    #[tactic(auto, using(crate::proofs::Wholes::wholes))]
    fn columns(&self) -> usize {
        self.nest.size().columns
    }

    fn at(
        &self,
        alloc: Global,
        row: usize,
        column: usize,
        steps: &mut Steps<L>,
    ) -> Result<ArrayNode, Memory> {
        let element = element_of(alloc, self.nest, self.book, row, column, steps)?;
        Ok(element)
    }
}
