ghost use Rattle.std.specs.Prelude.{◌≡◌, [], true, IfOk, IsTrue};
ghost use Rattle.std.specs.List.{filter};
ghost use Rattle.argument_core.specs.Check.{GivesAs};
ghost use Rattle.split_core.specs.Pieces.{none_empty};
ghost use Rattle.split_core.specs.Split.{stays};
ghost use Rattle.text_functions.specs.TextSplit.{both_delimiters, column_delimiters, delimiter_behind, delimiters_behind, delimiters_in, delimiters_of, one_delimiter, row_delimiters, unless_empty};

use argument_core::Stop;
use book_core::Reads;
use call_core::Steps;
use number_core::number_text;
use rectangle_core::Value;
use result_core::Found;
use split_core::none_empty;
use std::alloc::Global;
use value_core::{ArrayNode, CellReferenceIndex, Error, Memory, Text};

/// The delimiters of columns and those of rows, of which none is empty.
#[derive(Drop)]
pub(crate) struct Delimiters {
    pub(crate) columns: Vec<Text>,
    pub(crate) rows: Vec<Text>,
}

/// The delimiters of two arguments; `#VALUE!` where both have none.
pub(crate) fn both_delimiters<B: Reads<L>, L>(
    alloc: Global,
    book: &B,
    cell: CellReferenceIndex,
    second: Found,
    third: Option<Found>,
    steps: &mut Steps<L>,
) -> Result<Delimiters, Stop>
    ensures both { GivesAs (λ made. (made.columns.items, made.rows.items)) result (both_delimiters (B.contents book.now) cell second third) }
    ensures columns { IfOk result (λ made. IsTrue (none_empty made.columns.items)) }
    ensures rows { IfOk result (λ made. IsTrue (none_empty made.rows.items)) }
{
    let columns = column_delimiters(alloc, book, cell, second, steps)?;
    let rows = row_delimiters(alloc, book, cell, third, steps)?;
    if columns.is_empty() && rows.is_empty() {
        return Err(Stop::Wrong(Error::VALUE));
    }
    Ok(Delimiters { columns, rows })
}

/// The delimiters of columns; an empty one is `#VALUE!`.
fn column_delimiters<B: Reads<L>, L>(
    alloc: Global,
    book: &B,
    cell: CellReferenceIndex,
    found: Found,
    steps: &mut Steps<L>,
) -> Result<Vec<Text>, Stop>
    ensures columns { GivesAs (λ made. made.items) result (column_delimiters (B.contents book.now) cell found) }
    ensures none_empty { IfOk result (λ made. IsTrue (none_empty made.items)) }
{
    let texts = delimiters_in(alloc, book, cell, found, steps)?;
    unless_empty(texts)
}

fn unless_empty(texts: Vec<Text>) -> Result<Vec<Text>, Stop>
    ensures texts { GivesAs (λ made. made.items) result (unless_empty texts.items) }
    ensures none_empty { IfOk result (λ made. IsTrue (none_empty made.items)) }
{
    if none_empty(texts.as_slice()) {
        Ok(texts)
    } else {
        Err(Stop::Wrong(Error::VALUE))
    }
}

/// The delimiters of rows, without the empty ones.
fn row_delimiters<B: Reads<L>, L>(
    alloc: Global,
    book: &B,
    cell: CellReferenceIndex,
    found: Option<Found>,
    steps: &mut Steps<L>,
) -> Result<Vec<Text>, Stop>
    ensures rows { GivesAs (λ made. made.items) result (row_delimiters (B.contents book.now) cell found) }
    ensures none_empty { IfOk result (λ made. IsTrue (none_empty made.items)) }
{
    match found {
        Some(found) => {
            let texts = delimiters_in(alloc, book, cell, found, steps)?;
            let texts = without_empty(alloc, texts.as_slice())?;
            Ok(texts)
        }
        None => Ok(Vec::new(alloc)),
    }
}

#[tactic(auto, using(crate::proofs::Kept::kept))]
fn without_empty(alloc: Global, texts: &[Text]) -> Result<Vec<Text>, Memory>
    ensures kept { IfOk result (λ made. made.items ≡ filter (stays true) texts.now) }
    ensures none_empty { IfOk result (λ made. IsTrue (none_empty made.items)) }
{
    let mut kept = Vec::new(alloc);
    for (index, text) in texts.iter().enumerate() {
        if !text.as_str().is_empty() {
            let text = text.try_clone(alloc)?;
            kept.push(text)?;
        }
    }
    Ok(kept)
}

fn delimiters_in<B: Reads<L>, L>(
    alloc: Global,
    book: &B,
    cell: CellReferenceIndex,
    found: Found,
    steps: &mut Steps<L>,
) -> Result<Vec<Text>, Stop>
    ensures { GivesAs (λ made. made.items) result (delimiters_in (B.contents book.now) cell found) }
{
    let value = found.into_value(alloc, book, cell, steps)?;
    delimiters_of(alloc, value)
}

/// The delimiters that a value is.
fn delimiters_of(alloc: Global, value: Value) -> Result<Vec<Text>, Stop>
    ensures { GivesAs (λ made. made.items) result (delimiters_of value) }
{
    match value {
        Value::One(element) => one_delimiter(alloc, &element),
        Value::Missing => Ok(Vec::new(alloc)),
        Value::Grid(grid) => delimiters_behind(alloc, grid.elements()),
    }
}

fn one_delimiter(alloc: Global, element: &ArrayNode) -> Result<Vec<Text>, Stop>
    ensures { GivesAs (λ made. made.items) result (one_delimiter element.now) }
{
    match element {
        ArrayNode::Error(error) => Err(Stop::Wrong(*error)),
        other => delimiter_behind(alloc, Vec::new(alloc), other),
    }
}

/// The delimiters that the elements of an array are.
fn delimiters_behind(alloc: Global, elements: &[ArrayNode]) -> Result<Vec<Text>, Stop>
    ensures { GivesAs (λ made. made.items) result (delimiters_behind [] elements.now) }
{
    let mut texts = Vec::new(alloc);
    for element in elements {
        texts = delimiter_behind(alloc, texts, element)?;
    }
    Ok(texts)
}

/// Puts the delimiter that an element is behind others: nothing for a blank, `#VALUE!` for a truth value or an error.
fn delimiter_behind(alloc: Global, texts: Vec<Text>, element: &ArrayNode) -> Result<Vec<Text>, Stop>
    ensures { GivesAs (λ made. made.items) result (delimiter_behind texts.items element.now) }
{
    let mut texts = texts;
    match element {
        ArrayNode::Number(number) => {
            let text = number_text(alloc, *number)?;
            texts.push(text)?;
            Ok(texts)
        }
        ArrayNode::String(text) => {
            let text = text.try_clone(alloc)?;
            texts.push(text)?;
            Ok(texts)
        }
        ArrayNode::Empty => Ok(texts),
        ArrayNode::Boolean(_) | ArrayNode::Error(_) => Err(Stop::Wrong(Error::VALUE)),
    }
}
