ghost use Rattle.std.specs.Prelude.{◌≡◌, IfOk};
ghost use Rattle.argument_core.specs.Check.{Gives};
ghost use Rattle.argument_core.specs.Argument.{array_in, floor_in, given_if, given_or, int_in, is_missing, number_in, or_one, pad_in, pad_of, size_in, text_in, truth_in};

use crate::stop::Stop;
use book_core::Reads;
use call_core::Steps;
use grid_core::CalcResult;
use number_core::{floor, saturating_i64_to_usize, trunc};
use rectangle_core::Grid;
use result_core::{Found, array_of, bool_found, number_found, string_found};
use std::alloc::Global;
use value_core::{ArrayNode, CellReferenceIndex, Error, Memory, Text};

/// An argument as a rectangle: a range is read, one value is one by one, where a blank or missing one is the number 0.
pub fn array_in<B: Reads<L>, L>(
    alloc: Global,
    book: &B,
    cell: CellReferenceIndex,
    found: Found,
    steps: &mut Steps<L>,
) -> Result<Grid, Stop>
    ensures { Gives result (array_in (B.contents book.now) cell found) }
{
    let made = found.into_context(alloc, book, cell, steps)?;
    match array_of(alloc, book, made, steps)? {
        Ok(grid) => Ok(grid),
        Err(error) => Err(Stop::Wrong(error)),
    }
}

/// An argument as a number, in millionths. A range stands for the cell that `@` finds in it, and is `#VALUE!` where it finds
/// none; an array is `#NIMPL!`; a text that is no number is `#VALUE!`. At most one cell is read.
pub fn number_in<B: Reads<L>, L>(
    book: &B,
    cell: CellReferenceIndex,
    found: Found,
    steps: &mut Steps<L>,
) -> Result<i64, Stop>
    ensures { Gives result (number_in (B.contents book.now) cell found) }
{
    match number_found(book, cell, found, steps) {
        Ok(number) => Ok(number),
        Err(error) => Err(Stop::Wrong(error)),
    }
}

/// An argument as a truth value, with the errors of `number_in`; a text is one of the words TRUE and FALSE, or `#VALUE!`.
pub fn truth_in<B: Reads<L>, L>(
    book: &B,
    cell: CellReferenceIndex,
    found: Found,
    steps: &mut Steps<L>,
) -> Result<bool, Stop>
    ensures { Gives result (truth_in (B.contents book.now) cell found) }
{
    match bool_found(book, cell, found, steps) {
        Ok(truth) => Ok(truth),
        Err(error) => Err(Stop::Wrong(error)),
    }
}

/// An argument as a text, as it is written. A range stands for the cell that `@` finds in it, and is `#VALUE!` where it finds
/// none; an array is `#NIMPL!`.
pub fn text_in<B: Reads<L>, L>(
    alloc: Global,
    book: &B,
    cell: CellReferenceIndex,
    found: Found,
    steps: &mut Steps<L>,
) -> Result<Text, Stop>
    ensures { Gives result (text_in (B.contents book.now) cell found) }
{
    match string_found(alloc, book, cell, found, steps)? {
        Ok(text) => Ok(text),
        Err(error) => Err(Stop::Wrong(error)),
    }
}

/// The whole number of an argument, cut toward zero.
pub fn int_in<B: Reads<L>, L>(
    book: &B,
    cell: CellReferenceIndex,
    found: Found,
    steps: &mut Steps<L>,
) -> Result<i64, Stop>
    ensures { Gives result (int_in (B.contents book.now) cell found) }
{
    let number = number_in(book, cell, found, steps)?;
    Ok(trunc(number))
}

/// The whole number of an argument, cut toward zero and at least 0.
pub fn size_in<B: Reads<L>, L>(
    book: &B,
    cell: CellReferenceIndex,
    found: Found,
    steps: &mut Steps<L>,
) -> Result<usize, Stop>
    ensures { Gives result (size_in (B.contents book.now) cell found) }
{
    let number = number_in(book, cell, found, steps)?;
    Ok(saturating_i64_to_usize(trunc(number)))
}

/// The greatest whole number that is not above the number of an argument.
pub fn floor_in<B: Reads<L>, L>(
    book: &B,
    cell: CellReferenceIndex,
    found: Found,
    steps: &mut Steps<L>,
) -> Result<i64, Stop>
    ensures { Gives result (floor_in (B.contents book.now) cell found) }
{
    let number = number_in(book, cell, found, steps)?;
    Ok(floor(number))
}

/// The number of an argument if there is one.
pub fn number_if<B: Reads<L>, L>(
    book: &B,
    cell: CellReferenceIndex,
    found: Option<Found>,
    steps: &mut Steps<L>,
) -> Result<Option<i64>, Stop>
    ensures { Gives result (given_if (number_in (B.contents book.now) cell) found) }
{
    match found {
        Some(found) => {
            let number = number_in(book, cell, found, steps)?;
            Ok(Some(number))
        }
        None => Ok(None),
    }
}

/// The whole number of an argument, cut toward zero, or a default without one.
pub fn int_or<B: Reads<L>, L>(
    book: &B,
    cell: CellReferenceIndex,
    found: Option<Found>,
    default: i64,
    steps: &mut Steps<L>,
) -> Result<i64, Stop>
    ensures { Gives result (given_or (int_in (B.contents book.now) cell) default found) }
{
    match found {
        Some(found) => int_in(book, cell, found, steps),
        None => Ok(default),
    }
}

/// The whole number of an argument, cut toward zero, if there is one.
pub fn int_if<B: Reads<L>, L>(
    book: &B,
    cell: CellReferenceIndex,
    found: Option<Found>,
    steps: &mut Steps<L>,
) -> Result<Option<i64>, Stop>
    ensures { Gives result (given_if (int_in (B.contents book.now) cell) found) }
{
    match found {
        Some(found) => {
            let number = int_in(book, cell, found, steps)?;
            Ok(Some(number))
        }
        None => Ok(None),
    }
}

/// The whole number of an argument, cut toward zero and at least 0, or a default without one.
pub fn size_or<B: Reads<L>, L>(
    book: &B,
    cell: CellReferenceIndex,
    found: Option<Found>,
    default: usize,
    steps: &mut Steps<L>,
) -> Result<usize, Stop>
    ensures { Gives result (given_or (size_in (B.contents book.now) cell) default found) }
{
    match found {
        Some(found) => size_in(book, cell, found, steps),
        None => Ok(default),
    }
}

/// The truth value of an argument, or a default without one.
pub fn truth_or<B: Reads<L>, L>(
    book: &B,
    cell: CellReferenceIndex,
    found: Option<Found>,
    default: bool,
    steps: &mut Steps<L>,
) -> Result<bool, Stop>
    ensures { Gives result (given_or (truth_in (B.contents book.now) cell) default found) }
{
    match found {
        Some(found) => truth_in(book, cell, found, steps),
        None => Ok(default),
    }
}

/// Whether the value of an argument is missing.
pub fn is_missing(found: &Found) -> bool
    ensures { result ≡ is_missing found.now }
{
    match found {
        Found::Same(CalcResult::EmptyArg) => true,
        _ => false,
    }
}

/// The number of an argument, in millionths; 1 for an absent or missing one.
pub fn or_one<B: Reads<L>, L>(
    book: &B,
    cell: CellReferenceIndex,
    found: Option<Found>,
    steps: &mut Steps<L>,
) -> Result<i64, Stop>
    ensures { Gives result (or_one (B.contents book.now) cell found) }
{
    match found {
        Some(found) => {
            if is_missing(&found) {
                Ok(1000000)
            } else {
                number_in(book, cell, found, steps)
            }
        }
        None => Ok(1000000),
    }
}

fn pad_of(made: CalcResult) -> ArrayNode
    ensures { result ≡ pad_of made }
{
    match made {
        CalcResult::Number(number) => ArrayNode::Number(number),
        CalcResult::Boolean(value) => ArrayNode::Boolean(value),
        CalcResult::String(text) => ArrayNode::String(text),
        CalcResult::Error { error, .. } => ArrayNode::Error(error),
        CalcResult::Range { .. } => ArrayNode::Error(Error::VALUE),
        CalcResult::Array(grid) => {
            drop(grid);
            ArrayNode::Error(Error::VALUE)
        }
        CalcResult::EmptyCell => ArrayNode::Number(0),
        CalcResult::EmptyArg => ArrayNode::Number(0),
    }
}

/// The element that fills what is left of an array: a number, truth value, text or error stays, a blank or missing argument is 0,
/// a range or an array the element `#VALUE!`; without an argument it is `#N/A`. It never ends a call.
pub fn pad_in<B: Reads<L>, L>(
    alloc: Global,
    book: &B,
    cell: CellReferenceIndex,
    found: Option<Found>,
    steps: &mut Steps<L>,
) -> Result<ArrayNode, Memory>
    ensures { IfOk result (λ pad. pad ≡ pad_in (B.contents book.now) cell found) }
{
    match found {
        Some(found) => {
            let made = found.into_context(alloc, book, cell, steps)?;
            Ok(pad_of(made))
        }
        None => Ok(ArrayNode::Error(Error::NA)),
    }
}
