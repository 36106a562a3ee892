ghost use Rattle.argument_core.specs.Check.{Gives};
ghost use Rattle.text_functions.specs.ArrayToText.{array_to_text_call, form_in, one_text, strict_of, value_text};

use argument_core::{Stop, floor_in, one_or_two};
use array_texts::{array_text, element_text};
use book_core::Reads;
use call_core::Steps;
use grid_core::CalcResult;
use rectangle_core::Value;
use result_core::Found;
use std::alloc::Global;
use value_core::{ArrayNode, CellReferenceIndex, Error, Text};

/// ARRAYTOTEXT of one or two arguments: what is written, and its form: 0, as without an argument, for all elements with `, `
/// between them, 1 for an array literal; any other number is `#VALUE!`. A single value is written as an element, and nothing is for
/// a missing one; an error is the answer.
pub fn array_to_text_call<B: Reads<L>, L>(
    alloc: Global,
    book: &B,
    cell: CellReferenceIndex,
    args: Vec<Found>,
    steps: &mut Steps<L>,
) -> Result<CalcResult, Stop>
    ensures { Gives result (array_to_text_call (B.contents book.now) cell args.items) }
{
    let asked = one_or_two(args)?;
    let strict = form_in(book, cell, asked.second, steps)?;
    let value = asked.first.into_value(alloc, book, cell, steps)?;
    let text = value_text(alloc, strict, value)?;
    Ok(CalcResult::String(text))
}

fn strict_of(number: i64) -> Result<bool, Stop>
    ensures { Gives result (strict_of number) }
{
    match number {
        0 => Ok(false),
        1 => Ok(true),
        _ => Err(Stop::Wrong(Error::VALUE)),
    }
}

fn form_in<B: Reads<L>, L>(
    book: &B,
    cell: CellReferenceIndex,
    found: Option<Found>,
    steps: &mut Steps<L>,
) -> Result<bool, Stop>
    ensures { Gives result (form_in (B.contents book.now) cell found) }
{
    match found {
        Some(found) => {
            let number = floor_in(book, cell, found, steps)?;
            strict_of(number)
        }
        None => Ok(false),
    }
}

fn value_text(alloc: Global, strict: bool, value: Value) -> Result<Text, Stop>
    ensures { Gives result (value_text strict value) }
{
    match value {
        Value::One(element) => one_text(alloc, strict, &element),
        Value::Missing => Ok(Text::from_text(alloc, "")?),
        Value::Grid(grid) => Ok(array_text(alloc, &grid, strict)?),
    }
}

fn one_text(alloc: Global, strict: bool, element: &ArrayNode) -> Result<Text, Stop>
    ensures { Gives result (one_text strict element.now) }
{
    match element {
        ArrayNode::Error(error) => Err(Stop::Wrong(*error)),
        other => Ok(element_text(alloc, other, strict)?),
    }
}
