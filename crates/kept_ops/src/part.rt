ghost use Rattle.std.specs.Prelude.{◌≡◌, ◌≤◌, ◌<◌, IfOk, length};
ghost use Rattle.std.specs.Option.{option_copied};
ghost use Rattle.rectangle_core.specs.Rectangle.{element_at, height, or_blank, width};
ghost use Rattle.kept_ops.specs.Part.{columns_at, crossing, rows_at};
ghost use Rattle.kept_ops.specs.Picks.{pick_at, pick_count};

use call_core::{Plain, Steps};
use rectangle_core::{Grid, View, grid_of};
use std::alloc::Global;
use value_core::{ArrayNode, Memory};

/// Which rows, or which columns, of a rectangle are taken, by their numbers from 0.
#[derive(Clone, Copy)]
pub(crate) enum Picks<'a> {
    All,
    /// These, in their order.
    Kept(&'a [usize]),
    /// Those from the first number on that come before the second.
    Span { start: usize, stop: usize },
}

impl<'a> Picks<'a> {
    /// How many are taken of so many.
    fn count(self, count: usize) -> usize
        ensures { result ≡ pick_count self.entry count }
    {
        match self {
            Picks::All => count,
            Picks::Kept(kept) => kept.len(),
            Picks::Span { start, stop } => stop.saturating_sub(start),
        }
    }

    /// The number of one of those that are taken of so many.
    fn at(self, _count: usize, index: usize) -> usize
        requires { index < pick_count self _count }
        ensures { result ≡ pick_at self.entry index }
    {
        match self {
            Picks::All => index,
            Picks::Kept(kept) => kept[index],
            Picks::Span { start, stop: _ } => start + index,
        }
    }
}

/// The elements of a rectangle where some of its rows meet some of its columns.
#[derive(Drop)]
struct Part<'a, 'b> {
    grid: &'a Grid,
    rows: Picks<'b>,
    columns: Picks<'b>,
    ghost some_row: { 1 ≤ pick_count rows (height grid.now) },
    ghost some_column: { 1 ≤ pick_count columns (width grid.now) },
}

impl<'a, 'b, L> View<L> for Part<'a, 'b> {
    ghost row_count = { λ part. pick_count part.rows (height part.grid.now) };

    ghost column_count = { λ part. pick_count part.columns (width part.grid.now) };

    ghost element = { λ part i j. or_blank (element_at part.grid.now (pick_at part.rows i) (pick_at part.columns j)) };

    fn rows(&self) -> usize {
        self.rows.count(self.grid.rows())
    }

    fn columns(&self) -> usize {
        self.columns.count(self.grid.columns())
    }

    fn at(
        &self,
        alloc: Global,
        row: usize,
        column: usize,
        _steps: &mut Steps<L>,
    ) -> Result<ArrayNode, Memory> {
        let row = self.rows.at(self.grid.rows(), row);
        let column = self.columns.at(self.grid.columns(), column);
        clone_or_blank(alloc, self.grid.get(row, column))
    }
}

fn clone_or_blank(alloc: Global, element: Option<&ArrayNode>) -> Result<ArrayNode, Memory>
    ensures { IfOk result (λ made. made ≡ or_blank (option_copied element.entry)) }
{
    match element {
        Some(element) => element.try_clone(alloc),
        None => Ok(ArrayNode::Empty),
    }
}

/// The rows of these numbers, whole.
pub(crate) fn rows_at(alloc: Global, grid: &Grid, kept: &[usize]) -> Result<Grid, Memory>
    requires { 1 ≤ length kept.now }
    ensures { IfOk result (λ made. made ≡ rows_at grid.now kept.now) }
{
    let _columns = grid.columns();
    let part = Part {
        grid,
        rows: Picks::Kept(kept),
        columns: Picks::All,
    };
    let mut steps = Steps::new(Plain);
    let made = grid_of(alloc, &part, &mut steps)?;
    Ok(made)
}

/// The columns of these numbers, whole.
pub(crate) fn columns_at(alloc: Global, grid: &Grid, kept: &[usize]) -> Result<Grid, Memory>
    requires { 1 ≤ length kept.now }
    ensures { IfOk result (λ made. made ≡ columns_at grid.now kept.now) }
{
    let _rows = grid.rows();
    let part = Part {
        grid,
        rows: Picks::All,
        columns: Picks::Kept(kept),
    };
    let mut steps = Steps::new(Plain);
    let made = grid_of(alloc, &part, &mut steps)?;
    Ok(made)
}

/// Some rows and columns in a row.
#[derive(Clone, Copy)]
pub(crate) struct Span {
    /// The number of the first one, from 0.
    pub(crate) start: usize,
    /// One past the number of the last one.
    pub(crate) stop: usize,
}

/// The rows and the columns of two spans.
pub(crate) fn crossing(
    alloc: Global,
    grid: &Grid,
    rows: Span,
    columns: Span,
) -> Result<Grid, Memory>
    requires some_row { rows.start < rows.stop }
    requires some_column { columns.start < columns.stop }
    ensures { IfOk result (λ made. made ≡ crossing grid.now rows columns) }
{
    let part = Part {
        grid,
        rows: Picks::Span {
            start: rows.start,
            stop: rows.stop,
        },
        columns: Picks::Span {
            start: columns.start,
            stop: columns.stop,
        },
    };
    let mut steps = Steps::new(Plain);
    let made = grid_of(alloc, &part, &mut steps)?;
    Ok(made)
}
