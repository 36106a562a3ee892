ghost use Rattle.std.specs.Prelude.{◌≡◌, ◌≤◌, IfOk, if◌then◌else◌, length, map, slice_index_or};
ghost use Rattle.value_core.specs.declared.array.ArrayNode.TheVariants.{Empty};
ghost use Rattle.kept_ops.specs.Strip.{strip};

use call_core::{Plain, Steps};
use rectangle_core::{Grid, View, grid_of};
use std::alloc::Global;
use value_core::{ArrayNode, Memory};

/// Some elements as one column, or as one row.
#[derive(Drop)]
struct Strip<'a> {
    elements: &'a [&'a ArrayNode],
    as_column: bool,
    ghost some: { 1 ≤ length elements.now },
}

impl<'a, L> View<L> for Strip<'a> {
    ghost row_count = { λ strip. if strip.as_column then length strip.elements.now else 1 };

    ghost column_count = { λ strip. if strip.as_column then 1 else length strip.elements.now };

    ghost element = { λ strip i j. slice_index_or (map (λ e. e.now) strip.elements.now) (if strip.as_column then i else j) Empty };

    fn rows(&self) -> usize {
        if self.as_column {
            self.elements.len()
        } else {
            1
        }
    }

    fn columns(&self) -> usize {
        if self.as_column {
            1
        } else {
            self.elements.len()
        }
    }

    fn at(
        &self,
        alloc: Global,
        row: usize,
        column: usize,
        _steps: &mut Steps<L>,
    ) -> Result<ArrayNode, Memory> {
        let index = if self.as_column { row } else { column };
        self.elements[index].try_clone(alloc)
    }
}

/// One column, or one row, of these elements.
pub(crate) fn strip_of(
    alloc: Global,
    elements: &[&ArrayNode],
    as_column: bool,
) -> Result<Grid, Memory>
    requires { 1 ≤ length elements.now }
    ensures { IfOk result (λ made. made ≡ strip as_column (map (λ e. e.now) elements.now)) }
{
    let strip = Strip {
        elements,
        as_column,
    };
    let mut steps = Steps::new(Plain);
    let made = grid_of(alloc, &strip, &mut steps)?;
    Ok(made)
}
