ghost use Rattle.std.specs.Prelude.{◌≡◌, IfOk, IsTrue};
ghost use Rattle.argument_core.specs.Check.{Gives};
ghost use Rattle.split_core.specs.Pieces.{none_empty};
ghost use Rattle.text_functions.specs.TextSplit.{array_or_value, is_blind, is_given, pad_of, split_by, split_pad, text_split_call};

use crate::delimiters::{Delimiters, both_delimiters};
use argument_core::{Stop, number_if, text_in, truth_or, two_to_six};
use book_core::Reads;
use call_core::Steps;
use grid_core::CalcResult;
use rectangle_core::Grid;
use result_core::Found;
use split_core::split_text;
use std::alloc::Global;
use value_core::{ArrayNode, CellReferenceIndex, Error, Memory, Text};

/// TEXTSPLIT of two to six arguments: a text; the delimiters of columns, of which none may be empty; those of rows; whether empty
/// rows and pieces are left out; whether the case of ASCII letters is not looked at, by a number that isn't 0; and what fills a row
/// that is shorter than the longest, `#N/A` unless it is a number, a truth value, a text or an error. `#VALUE!` without any
/// delimiter, and where no piece is left.
pub fn text_split_call<B: Reads<L>, L>(
    alloc: Global,
    book: &B,
    cell: CellReferenceIndex,
    args: Vec<Found>,
    steps: &mut Steps<L>,
) -> Result<CalcResult, Stop>
    ensures { Gives result (text_split_call (B.contents book.now) cell args.items) }
{
    let asked = two_to_six(args)?;
    let text = text_in(alloc, book, cell, asked.first, steps)?;
    let delimiters = both_delimiters(alloc, book, cell, asked.second, asked.third, steps)?;
    let manner = Manner {
        ignore_empty: asked.fourth,
        blind: asked.fifth,
        pad: asked.sixth,
    };
    split_by(alloc, book, cell, &text, &delimiters, manner, steps)
}

/// The arguments behind the delimiters.
#[derive(Drop)]
struct Manner {
    ignore_empty: Option<Found>,
    blind: Option<Found>,
    pad: Option<Found>,
}

fn split_by<B: Reads<L>, L>(
    alloc: Global,
    book: &B,
    cell: CellReferenceIndex,
    text: &Text,
    delimiters: &Delimiters,
    manner: Manner,
    steps: &mut Steps<L>,
) -> Result<CalcResult, Stop>
    requires columns { IsTrue (none_empty delimiters.now.columns.items) }
    requires rows { IsTrue (none_empty delimiters.now.rows.items) }
    ensures { Gives result (split_by (B.contents book.now) cell text.now (delimiters.now.columns.items, delimiters.now.rows.items) manner.ignore_empty manner.blind manner.pad) }
{
    let ignore_empty = truth_or(book, cell, manner.ignore_empty, false, steps)?;
    let blind = is_blind(book, cell, manner.blind, steps)?;
    let pad = split_pad(alloc, book, cell, manner.pad, steps)?;
    let columns = delimiters.columns.as_slice();
    let rows = delimiters.rows.as_slice();
    let made = split_text(
        alloc,
        text.as_str(),
        columns,
        rows,
        ignore_empty,
        blind,
        &pad,
    )?;
    array_or_value(made)
}

fn is_given(number: Option<i64>) -> bool
    ensures { result ≡ is_given number }
{
    match number {
        Some(number) => number != 0,
        None => false,
    }
}

fn is_blind<B: Reads<L>, L>(
    book: &B,
    cell: CellReferenceIndex,
    found: Option<Found>,
    steps: &mut Steps<L>,
) -> Result<bool, Stop>
    ensures { Gives result (is_blind (B.contents book.now) cell found) }
{
    let number = number_if(book, cell, found, steps)?;
    Ok(is_given(number))
}

fn split_pad<B: Reads<L>, L>(
    alloc: Global,
    book: &B,
    cell: CellReferenceIndex,
    found: Option<Found>,
    steps: &mut Steps<L>,
) -> Result<ArrayNode, Memory>
    ensures { IfOk result (λ pad. pad ≡ split_pad (B.contents book.now) cell found) }
{
    match found {
        Some(found) => {
            let made = found.into_context(alloc, book, cell, steps)?;
            Ok(pad_of(made))
        }
        None => Ok(ArrayNode::Error(Error::NA)),
    }
}

fn pad_of(made: CalcResult) -> ArrayNode
    ensures { result ≡ pad_of made }
{
    match made {
        CalcResult::Number(number) => ArrayNode::Number(number),
        CalcResult::Boolean(value) => ArrayNode::Boolean(value),
        CalcResult::String(text) => ArrayNode::String(text),
        CalcResult::Error { error, .. } => ArrayNode::Error(error),
        CalcResult::Array(grid) => {
            drop(grid);
            ArrayNode::Error(Error::NA)
        }
        CalcResult::Range { .. } => ArrayNode::Error(Error::NA),
        CalcResult::EmptyCell => ArrayNode::Error(Error::NA),
        CalcResult::EmptyArg => ArrayNode::Error(Error::NA),
    }
}

fn array_or_value(made: Option<Grid>) -> Result<CalcResult, Stop>
    ensures { Gives result (array_or_value made) }
{
    match made {
        Some(grid) => Ok(CalcResult::Array(grid)),
        None => Err(Stop::Wrong(Error::VALUE)),
    }
}
