ghost use Rattle.std.specs.Prelude.{◌≡◌, ◌<◌, ◌≤◌, All, IfOk, None, length, map};
ghost use Rattle.std.specs.Option.{option_copied};
ghost use Rattle.rectangle_core.specs.Rectangle.{or_blank, rectangle};
ghost use Rattle.position_core.specs.Check.{refused};
ghost use Rattle.position_core.specs.Place.{HasPlaces};
ghost use Rattle.position_core.specs.Position.{position};
ghost use Rattle.position_core.specs.Sized.{reshaped};
ghost use Rattle.array_ops.specs.Reshaped.{part, picked, reshaped_grid, size_of};

use call_core::{Plain, Steps};
use position_core::{Position, Reshape, Size, position_in};
use rectangle_core::{Grid, View, grid_of};
use std::alloc::Global;
use value_core::{ArrayNode, Error, Memory};

/// The answer of a call that moves the elements of its arrays, element by element.
#[derive(Drop)]
struct Reshaped<'a> {
    reshape: &'a Reshape,
    grids: &'a [Grid],
    sizes: &'a [Size],
    size: Size,
    pad: &'a ArrayNode,
    ghost some: { 0 < length sizes.now },
    ghost fits: { refused reshape.now sizes.now 16777216 ≡ None },
    ghost whole: { size ≡ reshaped reshape.now sizes.now },
    ghost some_row: { 1 ≤ size.rows },
    ghost some_column: { 1 ≤ size.columns },
}

impl<'a, L> View<L> for Reshaped<'a> {
    ghost row_count = { λ answer. answer.size.rows };

    ghost column_count = { λ answer. answer.size.columns };

    ghost element = { λ answer i j. picked answer.grids.now answer.pad.now (position answer.reshape.now answer.sizes.now i j) };

    fn rows(&self) -> usize {
        self.size.rows
    }

    fn columns(&self) -> usize {
        self.size.columns
    }

    fn at(
        &self,
        alloc: Global,
        row: usize,
        column: usize,
        _steps: &mut Steps<L>,
    ) -> Result<ArrayNode, Memory> {
        let place = position_in(self.reshape, self.sizes, row, column);
        picked(alloc, self.grids, self.pad, place)
    }
}

fn picked(
    alloc: Global,
    grids: &[Grid],
    pad: &ArrayNode,
    place: Position,
) -> Result<ArrayNode, Memory>
    ensures { IfOk result (λ element. element ≡ picked grids.now pad.now place) }
{
    match place {
        Position::Part { index, row, column } => {
            clone_or_blank(alloc, part(grids, index, row, column))
        }
        Position::Pad => pad.try_clone(alloc),
        Position::NotAvailable => Ok(ArrayNode::Error(Error::NA)),
    }
}

fn part(grids: &[Grid], index: usize, row: usize, column: usize) -> Option<&ArrayNode>
    ensures { option_copied result ≡ part grids.now index row column }
{
    match grids.get(index) {
        Some(grid) => grid.get(row, column),
        None => None,
    }
}

fn clone_or_blank(alloc: Global, element: Option<&ArrayNode>) -> Result<ArrayNode, Memory>
    ensures { IfOk result (λ made. made ≡ or_blank (option_copied element.entry)) }
{
    match element {
        Some(element) => element.try_clone(alloc),
        None => Ok(ArrayNode::Empty),
    }
}

/// The sizes of some grids, in their order.
pub(crate) fn sizes_of(alloc: Global, grids: &[Grid]) -> Result<Vec<Size>, Memory>
    ensures sizes { IfOk result (λ sizes. sizes.items ≡ map size_of grids.now) }
    ensures places { IfOk result (λ sizes. All HasPlaces sizes.items) }
{
    let mut sizes = Vec::new(alloc);
    for (index, grid) in grids.iter().enumerate() {
        let size = size_of(grid);
        sizes.push(size)?;
    }
    Ok(sizes)
}

fn size_of(grid: &Grid) -> Size
    ensures size { result ≡ size_of grid.now }
    ensures places { HasPlaces result }
{
    Size {
        rows: grid.rows(),
        columns: grid.columns(),
    }
}

/// The answer of a call whose checks are passed, whole.
pub(crate) fn filled(
    alloc: Global,
    reshape: &Reshape,
    grids: &[Grid],
    sizes: &[Size],
    size: Size,
    pad: &ArrayNode,
) -> Result<Grid, Memory>
    requires some { 0 < length sizes.now }
    requires sizes { sizes.now ≡ map size_of grids.now }
    requires fits { refused reshape.now sizes.now 16777216 ≡ None }
    requires whole { size ≡ reshaped reshape.now sizes.now }
    requires places { HasPlaces size }
    ensures { IfOk result (λ grid. grid ≡ reshaped_grid reshape.now grids.now pad.now) }
{
    let answer = Reshaped {
        reshape,
        grids,
        sizes,
        size,
        pad,
    };
    let mut steps = Steps::new(Plain);
    let grid = grid_of(alloc, &answer, &mut steps)?;
    Ok(grid)
}
