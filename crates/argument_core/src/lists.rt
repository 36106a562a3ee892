ghost use Rattle.std.specs.Prelude.{◌≡◌, ◌<◌, IfOk, length};
ghost use Rattle.argument_core.specs.Check.{GivesAs, each};
ghost use Rattle.argument_core.specs.Argument.{array_in};
ghost use Rattle.argument_core.specs.Count.{at_least_one, at_least_two};

use crate::arguments::array_in;
use crate::counts::required;
use crate::stop::Stop;
use book_core::Reads;
use call_core::Steps;
use rectangle_core::Grid;
use result_core::Found;
use std::alloc::Global;
use value_core::{CellReferenceIndex, Error};

/// At least two arguments: the first one, and those behind it.
#[derive(Debug, Drop)]
pub struct FirstAndMore {
    pub first: Found,
    pub more: Vec<Found>,
}

/// The arguments of a call that has at least one; `#ERROR!` for none.
pub fn at_least_one(args: Vec<Found>) -> Result<Vec<Found>, Stop>
    ensures asked { GivesAs (λ asked. asked.items) result (at_least_one args.items) }
    ensures some { IfOk result (λ asked. 0 < length asked.items) }
{
    if args.is_empty() {
        Err(Stop::Wrong(Error::ERROR))
    } else {
        Ok(args)
    }
}

/// The arguments of a call that has at least two; `#ERROR!` for none or one.
pub fn at_least_two(args: Vec<Found>) -> Result<FirstAndMore, Stop>
    ensures asked { GivesAs (λ asked. (asked.first, asked.more.items)) result (at_least_two args.items) }
    ensures some { IfOk result (λ asked. 0 < length asked.more.items) }
{
    let mut more = args;
    let first = required(&mut more)?;
    if more.is_empty() {
        Err(Stop::Wrong(Error::ERROR))
    } else {
        Ok(FirstAndMore { first, more })
    }
}

/// Arguments as rectangles, in their order.
#[tactic(auto, using(crate::proofs::Each::eaches))]
pub fn arrays_in<B: Reads<L>, L>(
    alloc: Global,
    book: &B,
    cell: CellReferenceIndex,
    args: Vec<Found>,
    steps: &mut Steps<L>,
) -> Result<Vec<Grid>, Stop>
    ensures arrays { GivesAs (λ grids. grids.items) result (each (array_in (B.contents book.now) cell) args.items) }
    ensures count { IfOk result (λ grids. length grids.items ≡ length args.items) }
{
    let mut grids = Vec::new(alloc);
    for arg in args {
        let grid = array_in(alloc, book, cell, arg, steps)?;
        grids.push(grid)?;
    }
    Ok(grids)
}
