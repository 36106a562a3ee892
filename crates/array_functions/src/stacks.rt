ghost use Rattle.argument_core.specs.Check.{Gives};
ghost use Rattle.array_functions.specs.Stacks.{hstack_call, vstack_call};

use argument_core::{Stop, arrays_in, at_least_one};
use array_ops::{hstack, vstack};
use book_core::Reads;
use call_core::Steps;
use grid_core::CalcResult;
use result_core::Found;
use std::alloc::Global;
use value_core::CellReferenceIndex;

/// HSTACK of at least one argument: arrays side by side. `#N/A` stands below one that has fewer rows than the others.
pub fn hstack_call<B: Reads<L>, L>(
    alloc: Global,
    book: &B,
    cell: CellReferenceIndex,
    args: Vec<Found>,
    steps: &mut Steps<L>,
) -> Result<CalcResult, Stop>
    ensures { Gives result (hstack_call (B.contents book.now) cell args.items) }
{
    let asked = at_least_one(args)?;
    let grids = arrays_in(alloc, book, cell, asked, steps)?;
    let answer = hstack(alloc, grids.as_slice())?;
    Ok(CalcResult::Array(answer))
}

/// VSTACK of at least one argument: arrays below each other. `#N/A` stands right of one that has fewer columns than the others.
pub fn vstack_call<B: Reads<L>, L>(
    alloc: Global,
    book: &B,
    cell: CellReferenceIndex,
    args: Vec<Found>,
    steps: &mut Steps<L>,
) -> Result<CalcResult, Stop>
    ensures { Gives result (vstack_call (B.contents book.now) cell args.items) }
{
    let asked = at_least_one(args)?;
    let grids = arrays_in(alloc, book, cell, asked, steps)?;
    let answer = vstack(alloc, grids.as_slice())?;
    Ok(CalcResult::Array(answer))
}
