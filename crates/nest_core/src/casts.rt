//! Casts of literals: no book is read for them.
ghost use Rattle.std.specs.Prelude.{◌≡◌, IfOk};
ghost use Rattle.book_core.specs.Contents.{no_contents};
ghost use Rattle.argument_core.specs.Check.{Gives};
ghost use Rattle.array_functions.specs.Parts.{choice_in, count_in};
ghost use Rattle.argument_core.specs.Argument.{given_if, given_or, int_in, or_one, pad_in, size_in};

use argument_core::{Stop, int_if, int_in, or_one, pad_in, size_in, size_or};
use array_functions::{choice_in, count_if, count_in};
use book_core::MemoryBook;
use call_core::{Plain, Steps};
use result_core::Found;
use std::alloc::Global;
use value_core::{ArrayNode, CellReferenceIndex, Memory};

/// The whole number of a literal, cut toward zero.
pub(crate) fn int_of(alloc: Global, cell: CellReferenceIndex, found: Found) -> Result<i64, Stop>
    ensures { Gives result (int_in no_contents cell found) }
{
    let book = MemoryBook::new(alloc);
    let mut steps = Steps::new(Plain);
    int_in(&book, cell, found, &mut steps)
}

/// The whole number of a literal, cut toward zero, if there is one.
pub(crate) fn int_if_any(
    alloc: Global,
    cell: CellReferenceIndex,
    found: Option<Found>,
) -> Result<Option<i64>, Stop>
    ensures { Gives result (given_if (int_in no_contents cell) found) }
{
    let book = MemoryBook::new(alloc);
    let mut steps = Steps::new(Plain);
    int_if(&book, cell, found, &mut steps)
}

/// How many rows or columns a literal asks to keep.
pub(crate) fn count_of(alloc: Global, cell: CellReferenceIndex, found: Found) -> Result<i64, Stop>
    ensures { Gives result (count_in no_contents cell found) }
{
    let book = MemoryBook::new(alloc);
    let mut steps = Steps::new(Plain);
    count_in(&book, cell, found, &mut steps)
}

/// How many rows or columns a literal asks to keep, if there is one.
pub(crate) fn count_if_any(
    alloc: Global,
    cell: CellReferenceIndex,
    found: Option<Found>,
) -> Result<Option<i64>, Stop>
    ensures { Gives result (given_if (count_in no_contents cell) found) }
{
    let book = MemoryBook::new(alloc);
    let mut steps = Steps::new(Plain);
    count_if(&book, cell, found, &mut steps)
}

/// The number by which a literal names one of so many lines.
pub(crate) fn choice_of(
    alloc: Global,
    cell: CellReferenceIndex,
    total: usize,
    found: Found,
) -> Result<i64, Stop>
    ensures { Gives result (choice_in no_contents cell total found) }
{
    let book = MemoryBook::new(alloc);
    let mut steps = Steps::new(Plain);
    choice_in(&book, cell, total, found, &mut steps)
}

/// The whole number of a literal, cut toward zero and at least 0.
pub(crate) fn size_of(alloc: Global, cell: CellReferenceIndex, found: Found) -> Result<usize, Stop>
    ensures { Gives result (size_in no_contents cell found) }
{
    let book = MemoryBook::new(alloc);
    let mut steps = Steps::new(Plain);
    size_in(&book, cell, found, &mut steps)
}

/// The whole number of a literal, cut toward zero and at least 0, or a default without one.
pub(crate) fn size_or_default(
    alloc: Global,
    cell: CellReferenceIndex,
    found: Option<Found>,
    default: usize,
) -> Result<usize, Stop>
    ensures { Gives result (given_or (size_in no_contents cell) default found) }
{
    let book = MemoryBook::new(alloc);
    let mut steps = Steps::new(Plain);
    size_or(&book, cell, found, default, &mut steps)
}

/// The number of a literal, in millionths; 1 for an absent or missing one.
pub(crate) fn number_or_one(
    alloc: Global,
    cell: CellReferenceIndex,
    found: Option<Found>,
) -> Result<i64, Stop>
    ensures { Gives result (or_one no_contents cell found) }
{
    let book = MemoryBook::new(alloc);
    let mut steps = Steps::new(Plain);
    or_one(&book, cell, found, &mut steps)
}

/// The element that fills what is left of an array.
pub(crate) fn pad_of(
    alloc: Global,
    cell: CellReferenceIndex,
    found: Option<Found>,
) -> Result<ArrayNode, Memory>
    ensures { IfOk result (λ pad. pad ≡ pad_in no_contents cell found) }
{
    let book = MemoryBook::new(alloc);
    let mut steps = Steps::new(Plain);
    let pad = pad_in(alloc, &book, cell, found, &mut steps)?;
    Ok(pad)
}
