ghost use Rattle.std.specs.Prelude.{◌≡◌, IfOk};
ghost use Rattle.operand_core.specs.Cast.{cast_to_bool, cast_to_number, cast_to_string};
ghost use Rattle.result_core.specs.Single.{at_or_value, cast_found, range_found, range_in, single_found, single_in};

use crate::found::Found;
use book_core::{Reads, implicit_intersection};
use call_core::Steps;
use grid_core::CalcResult;
use operand_core::{cast_to_bool, cast_to_number, cast_to_string};
use std::alloc::Global;
use value_core::{ArrayNode, CellReferenceIndex, Error, Memory, Range, Text};

/// A single value before its cast: a cell that is still to be read, or an element.
#[derive(Debug, Drop)]
pub(crate) enum Single {
    At(CellReferenceIndex),
    Element(ArrayNode),
}

fn at_or_value(found: Option<CellReferenceIndex>) -> Result<Single, Error>
    ensures { result ≡ at_or_value found }
{
    match found {
        Some(at) => Ok(Single::At(at)),
        None => Err(Error::VALUE),
    }
}

fn single_in(cell: CellReferenceIndex, made: CalcResult) -> Result<Single, Error>
    ensures { result ≡ single_in cell made }
{
    match made {
        CalcResult::Number(number) => Ok(Single::Element(ArrayNode::Number(number))),
        CalcResult::Boolean(value) => Ok(Single::Element(ArrayNode::Boolean(value))),
        CalcResult::String(text) => Ok(Single::Element(ArrayNode::String(text))),
        CalcResult::Error { error, .. } => Err(error),
        CalcResult::Range { left, right } => {
            at_or_value(implicit_intersection(&cell, &Range { left, right }))
        }
        CalcResult::Array(grid) => {
            drop(grid);
            Err(Error::NIMPL)
        }
        CalcResult::EmptyCell => Ok(Single::Element(ArrayNode::Empty)),
        CalcResult::EmptyArg => Ok(Single::Element(ArrayNode::Empty)),
    }
}

fn single_found(cell: CellReferenceIndex, found: Found) -> Result<Single, Error>
    ensures { result ≡ single_found cell found }
{
    match found {
        Found::Cell(at) => Ok(Single::At(at)),
        Found::Same(made) => single_in(cell, made),
    }
}

/// What was found as a number, in millionths. A range stands for the cell that `@` finds in it, and is `#VALUE!` where it finds
/// none; an array is `#NIMPL!`; a text that is no number is `#VALUE!`; an error is that error. At most one cell is read.
pub fn number_found<B: Reads<L>, L>(
    book: &B,
    cell: CellReferenceIndex,
    found: Found,
    steps: &mut Steps<L>,
) -> Result<i64, Error>
    ensures { result ≡ cast_found cast_to_number (B.contents book.now) cell found }
{
    match single_found(cell, found) {
        Ok(Single::At(at)) => cast_to_number(book.value(at, steps)),
        Ok(Single::Element(element)) => cast_to_number(&element),
        Err(error) => Err(error),
    }
}

/// What was found as a truth value, with the errors of `number_found`; a text is one of the words TRUE and FALSE, or `#VALUE!`.
pub fn bool_found<B: Reads<L>, L>(
    book: &B,
    cell: CellReferenceIndex,
    found: Found,
    steps: &mut Steps<L>,
) -> Result<bool, Error>
    ensures { result ≡ cast_found cast_to_bool (B.contents book.now) cell found }
{
    match single_found(cell, found) {
        Ok(Single::At(at)) => cast_to_bool(book.value(at, steps)),
        Ok(Single::Element(element)) => cast_to_bool(&element),
        Err(error) => Err(error),
    }
}

/// What was found as a text. A range stands for the cell that `@` finds in it, and is `#VALUE!` where it finds none; an array is
/// `#NIMPL!`; an error is that error.
pub fn string_found<B: Reads<L>, L>(
    alloc: Global,
    book: &B,
    cell: CellReferenceIndex,
    found: Found,
    steps: &mut Steps<L>,
) -> Result<Result<Text, Error>, Memory>
    ensures { IfOk result (λ text. text ≡ cast_found cast_to_string (B.contents book.now) cell found) }
{
    match single_found(cell, found) {
        Ok(Single::At(at)) => cast_to_string(alloc, book.value(at, steps)),
        Ok(Single::Element(element)) => cast_to_string(alloc, &element),
        Err(error) => Ok(Err(error)),
    }
}

fn range_in(made: CalcResult) -> Result<Range, Error>
    ensures { result ≡ range_in made }
{
    match made {
        CalcResult::Range { left, right } => Ok(Range { left, right }),
        CalcResult::Error { error, .. } => Err(error),
        other => {
            drop(other);
            Err(Error::VALUE)
        }
    }
}

/// What was found as a range, a cell as the range of itself. An error is that error, anything else `#VALUE!`.
pub fn range_found(found: Found) -> Result<Range, Error>
    ensures { result ≡ range_found found }
{
    range_in(found.into_reference())
}
