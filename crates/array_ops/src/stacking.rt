ghost use Rattle.std.specs.Prelude.{◌≡◌, ◌<◌, IfOk, length};
ghost use Rattle.position_core.specs.declared.reshape.Reshape.TheVariants.{Hstack, Vstack};
ghost use Rattle.array_ops.specs.Reshaped.{not_available, reshaped_grid};

use crate::answer::reshaped_grid;
use position_core::Reshape;
use rectangle_core::Grid;
use std::alloc::Global;
use value_core::Memory;

/// HSTACK: at least one array, side by side in their order. It has the rows of the array that has most; `#N/A` stands below
/// an array that has fewer.
pub fn hstack(alloc: Global, grids: &[Grid]) -> Result<Grid, Memory>
    requires { 0 < length grids.now }
    ensures { IfOk result (λ grid. grid ≡ reshaped_grid Hstack grids.now not_available) }
{
    reshaped_grid(alloc, &Reshape::Hstack, grids)
}

/// VSTACK: at least one array, below each other in their order. It has the columns of the array that has most; `#N/A` stands
/// right of an array that has fewer.
pub fn vstack(alloc: Global, grids: &[Grid]) -> Result<Grid, Memory>
    requires { 0 < length grids.now }
    ensures { IfOk result (λ grid. grid ≡ reshaped_grid Vstack grids.now not_available) }
{
    reshaped_grid(alloc, &Reshape::Vstack, grids)
}
